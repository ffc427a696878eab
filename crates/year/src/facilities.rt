//! The facilities of the year, and their registering.
use crate::answers::{numbered, refused};
use crate::year::Year;
use ledger::{Ledger, LedgerFault, MOST_MODULES, Module, Refusal};
use metering::{Demand, Kind, Storage, Thermal};

/// A thermal plant of two modules.
pub const PLANT: u32 = 1;
/// A store of two modules.
pub const STORE: u32 = 2;
/// A consumer.
pub const CONSUMER: u32 = 3;
/// A thermal plant that is off in January.
pub const LATE_PLANT: u32 = 4;
/// A store that is registered in the course of the year.
pub const NEW_STORE: u32 = 5;
/// The month in which the new store is registered.
pub const NEW_STORE_COMES: u32 = 6;

/// What a facility is registered with.
#[derive(Clone, Copy)]
struct Entry {
    letter: u8,
    modules: [Module; MOST_MODULES],
    count: u32,
    access: u32,
}

impl Year<'_> {
    /// Registers a facility, which is to get this number.
    fn register(&mut self, call: &str, number: u32, entry: Entry) -> anyhow::Result<()> {
        numbered(self.rt, call, number, enter(&mut self.ledger, entry))
    }

    /// Registers the facilities that are there from the beginning, and one whose letter is none.
    pub fn register_first(&mut self) -> anyhow::Result<()> {
        self.register("registering the plant", PLANT, plant())?;
        self.register("registering the store", STORE, store())?;
        let unlettered = Entry {
            letter: b'd',
            ..consumer()
        };
        refused(
            self.rt,
            "registering under a small letter",
            Refusal::OutOfLimits.into(),
            enter(&mut self.ledger, unlettered),
        )?;
        self.register("registering the consumer", CONSUMER, consumer())?;
        self.register("registering the late plant", LATE_PLANT, late_plant())
    }

    /// Registers the store that comes later.
    pub fn register_new_store(&mut self) -> anyhow::Result<()> {
        self.register("registering the new store", NEW_STORE, new_store())
    }

    /// Registers one more after the year.
    pub fn register_too_late(&mut self) -> anyhow::Result<()> {
        refused(
            self.rt,
            "registering after the year",
            Refusal::YearOver.into(),
            enter(&mut self.ledger, new_store()),
        )
    }
}

fn enter(ledger: &mut Ledger, entry: Entry) -> Result<u32, LedgerFault> {
    ledger.register(entry.letter, entry.modules, entry.count, entry.access)
}

/// Its firm power is its access, 95,000 kW, since its modules make 95,020.
fn plant() -> Entry {
    Entry {
        letter: Thermal::LETTER,
        modules: [
            Module::new(100_000, 900),
            Module::new(20_000, 251),
            Module::default(),
            Module::default(),
        ],
        count: 2,
        access: 95_000,
    }
}

/// Its firm power is 30,009 kW.
fn store() -> Entry {
    Entry {
        letter: Storage::LETTER,
        modules: [
            Module::new(30_000, 700),
            Module::new(10_010, 900),
            Module::default(),
            Module::default(),
        ],
        count: 2,
        access: 50_000,
    }
}

/// Its firm power is 20,000 kW.
fn consumer() -> Entry {
    Entry {
        letter: Demand::LETTER,
        modules: [
            Module::new(20_000, 1_000),
            Module::default(),
            Module::default(),
            Module::default(),
        ],
        count: 1,
        access: 20_000,
    }
}

/// Its firm power is 50,000 kW.
fn late_plant() -> Entry {
    Entry {
        letter: Thermal::LETTER,
        modules: [
            Module::new(60_000, 850),
            Module::default(),
            Module::default(),
            Module::default(),
        ],
        count: 1,
        access: 50_000,
    }
}

/// Its firm power is 9,600 kW.
fn new_store() -> Entry {
    Entry {
        letter: Storage::LETTER,
        modules: [
            Module::new(12_000, 800),
            Module::default(),
            Module::default(),
            Module::default(),
        ],
        count: 1,
        access: 10_000,
    }
}
