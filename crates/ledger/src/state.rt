//! What a ledger keeps, as plain data: the facts that every ledger keeps stand beside it, in `Ledger`.
use arrayvec::ArrayVec;
use calendar::{Calendar, MONTHS};
use metering::Measured;
use std::marker::Model;

/// The most facilities that a ledger registers.
pub const MOST_FACILITIES: usize = 64;
/// The most awards that a ledger takes.
pub const MOST_AWARDS: usize = 32;
/// The year's last month.
pub(crate) const LAST_MONTH: u32 = MONTHS as u32;

/// The phase of a month.
#[derive(Clone, Copy, PartialEq, Eq, Debug)]
pub enum Phase {
    Trading,
    Metering,
    Claims,
}

/// How far the year is.
#[derive(Clone, Copy, PartialEq, Eq, Debug)]
pub enum Stage {
    Unopened,
    Month(u32, Phase),
    Finished,
}

/// A facility of the register: its kind's letter, its firm power in kW, and whether it is switched on.
#[derive(Clone, Copy, Default)]
pub struct Facility {
    pub letter: u8,
    pub firm: u32,
    pub on: bool,
}

/// The facilities that were registered, in the order of their numbers.
pub type Register = ArrayVec<Facility, MOST_FACILITIES>;

/// An award: its kW, its price in euros a firm MW and year, and the kW of it that each facility holds.
#[derive(Clone, Copy, Default)]
pub struct Award {
    pub kw: u32,
    pub price: u32,
    pub held: [u32; MOST_FACILITIES],
}

/// The awards that were taken, in the order of their numbers.
pub type Trade = ArrayVec<Award, MOST_AWARDS>;

/// A facility's claim in a month.
#[derive(Clone, Copy, PartialEq, Eq, Debug)]
pub enum Claim {
    None,
    Open,
    Answered,
}

/// What came in of a facility in the month under way: its measured report, if it has one, and its claim.
#[derive(Clone, Copy)]
pub struct Filed {
    pub measured: Option<Measured>,
    pub claim: Claim,
}

/// What came in for the month under way, of each facility.
pub type Month = [Filed; MOST_FACILITIES];

/// What is booked for a facility in a closed month, in cents.
#[derive(Clone, Copy, PartialEq, Eq, Debug, Default)]
pub struct Line {
    pub right: u64,
    pub penalty: u64,
}

/// The lines of each month, one for each facility. A clause sees them as the list of the months' lines.
#[derive(Drop)]
pub struct Lines {
    pub months: [[Line; MOST_FACILITIES]; MONTHS],
}

impl Model for Lines {
    ghost use Rattle.std.specs.Prelude.{List};
    ghost use Rattle.ledger.specs.declared.state.Line.{Line as OneLine};

    ghost Value = { List (List OneLine) };

    ghost view = { λ lines. lines.months };
}

/// All that a ledger keeps.
#[derive(Drop)]
pub struct Book {
    pub calendar: Calendar,
    pub stage: Stage,
    pub register: Register,
    pub trade: Trade,
    pub month: Month,
    pub lines: Lines,
}
