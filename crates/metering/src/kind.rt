//! What a kind of facility is, and the three built-in kinds.
ghost use Rattle.std.specs.Prelude.{◌≡◌, ℕ, ◌≤◌};
ghost use Rattle.metering.specs.Credit.{thermal_credit, storage_credit, demand_credit};
ghost use Rattle.std.proofs.Common.{rules};

/// A kind of facility. It means one thing: what an hour record is worth under a commitment, in kW.
pub trait Kind {
    /// What is recorded of one stress hour.
    type Hour;

    /// The letter of the facilities that report by this kind.
    const LETTER: u8;
    /// The fewest hours of a test.
    const SHORTEST: u32;
    /// The most hours of a test.
    const LONGEST: u32;

    ghost LETTER: { ℕ };

    ghost SHORTEST: { ℕ };

    ghost LONGEST: { ℕ };

    ghost credit: { Self.Hour → ℕ → ℕ };

    /// The kind's letter.
    fn kind_letter() -> u8
        ensures { result ≡ LETTER }
    {
        Self::LETTER
    }

    /// The fewest hours of a test.
    fn shortest_test() -> u32
        ensures { result ≡ SHORTEST }
    {
        Self::SHORTEST
    }

    /// The most hours of a test.
    fn longest_test() -> u32
        ensures { result ≡ LONGEST }
    {
        Self::LONGEST
    }

    /// How many kW the record of one hour is worth, given the facility's commitment.
    fn credit(hour: &Self::Hour, commitment: u32) -> u32
        ensures { result ≡ credit hour.now commitment };

    /// No hour is worth more than the commitment.
    ghost bounded: { (hour : Self.Hour) (commitment : ℕ) → credit hour commitment ≤ commitment };

    /// A test has an hour.
    ghost lasting: { (1 ≤ SHORTEST) × (1 ≤ LONGEST) };
}

/// A thermal facility, which runs at its least stable power or above, or not at all.
#[derive(Clone, Copy)]
pub struct Thermal;

/// The power declared available in an hour, and the least at which the facility runs stably, in kW.
#[derive(Clone, Copy, PartialEq, Eq, Debug)]
pub struct ThermalHour {
    pub declared: u32,
    pub least: u32,
}

impl Kind for Thermal {
    type Hour = ThermalHour;

    const LETTER: u8 = b'T';

    const SHORTEST: u32 = 3;

    const LONGEST: u32 = 24;

    ghost LETTER = { 84 };

    ghost SHORTEST = { 3 };

    ghost LONGEST = { 24 };

    ghost credit = { thermal_credit };

    ghost bounded = { Prim.search rules };

    ghost lasting = { Prim.search rules };

    fn credit(hour: &ThermalHour, commitment: u32) -> u32 {
        if hour.declared < hour.least {
            return 0;
        }
        commitment.min(hour.declared)
    }
}

/// A store, which delivers no longer than its energy lasts.
#[derive(Clone, Copy)]
pub struct Storage;

/// The power of a store in an hour, in kW, and the energy stored for that hour, in kWh.
#[derive(Clone, Copy, PartialEq, Eq, Debug)]
pub struct StorageHour {
    pub power: u32,
    pub stored: u32,
}

impl Kind for Storage {
    type Hour = StorageHour;

    const LETTER: u8 = b'S';

    const SHORTEST: u32 = 1;

    const LONGEST: u32 = 1;

    ghost LETTER = { 83 };

    ghost SHORTEST = { 1 };

    ghost LONGEST = { 1 };

    ghost credit = { storage_credit };

    ghost bounded = { Prim.search rules };

    ghost lasting = { Prim.search rules };

    fn credit(hour: &StorageHour, commitment: u32) -> u32 {
        commitment.min(hour.power).min(hour.stored)
    }
}

/// A consumer that can do without what it draws above its residual power.
#[derive(Clone, Copy)]
pub struct Demand;

/// What a consumer draws in an hour, and what it cannot do without, in kW.
#[derive(Clone, Copy, PartialEq, Eq, Debug)]
pub struct DemandHour {
    pub consumption: u32,
    pub residual: u32,
}

impl Kind for Demand {
    type Hour = DemandHour;

    const LETTER: u8 = b'D';

    const SHORTEST: u32 = 1;

    const LONGEST: u32 = 3;

    ghost LETTER = { 68 };

    ghost SHORTEST = { 1 };

    ghost LONGEST = { 3 };

    ghost credit = { demand_credit };

    ghost bounded = { Prim.search rules };

    ghost lasting = { Prim.search rules };

    fn credit(hour: &DemandHour, commitment: u32) -> u32 {
        commitment.min(hour.consumption.saturating_sub(hour.residual))
    }
}
