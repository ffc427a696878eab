//! What is traded: the awards of January, and the switches and cessions of each month.
use crate::answers::{accepted, numbered, refused};
use crate::facilities::{CONSUMER, LATE_PLANT, NEW_STORE, NEW_STORE_COMES, PLANT, STORE};
use crate::year::Year;
use ledger::Refusal;

/// The plant's first award, of 50,000 kW.
const BASE: u32 = 1;
/// The plant's second award, of 30,000 kW.
const PEAK: u32 = 2;
/// The store's award, of 20,000 kW.
const STORED: u32 = 3;
/// The late plant's award, of 40,000 kW.
const LATE: u32 = 4;

impl Year<'_> {
    /// What happens in a month's trading.
    pub fn trade(&mut self, month: u32) -> anyhow::Result<()> {
        match month {
            1 => self.trade_in_january(),
            2 => self.switch("switching the late plant on", LATE_PLANT, true),
            4 => self.trade_in_april(),
            NEW_STORE_COMES => self.register_new_store(),
            7 => self.trade_in_july(),
            10 => self.switch("switching the store off", STORE, false),
            11 => self.switch("switching the store on", STORE, true),
            _ => Ok(()),
        }
    }

    /// The awards, and the first cession, whose taker is switched on after one attempt.
    fn trade_in_january(&mut self) -> anyhow::Result<()> {
        self.award_all()?;
        self.switch("switching the plant on", PLANT, true)?;
        self.switch("switching the store on", STORE, true)?;
        refused(
            self.rt,
            "ceding to a consumer that is off",
            Refusal::TakerOff.into(),
            self.ledger.cede(BASE, PLANT, CONSUMER, 8_001),
        )?;
        self.switch("switching the consumer on", CONSUMER, true)?;
        accepted(
            self.rt,
            "ceding to the consumer",
            self.ledger.cede(BASE, PLANT, CONSUMER, 8_001),
        )
    }

    /// Four awards, and one that the plant has no firm power for.
    fn award_all(&mut self) -> anyhow::Result<()> {
        numbered(
            self.rt,
            "the base award",
            BASE,
            self.ledger.award(PLANT, 50_000, 24_000),
        )?;
        numbered(
            self.rt,
            "the peak award",
            PEAK,
            self.ledger.award(PLANT, 30_000, 31_007),
        )?;
        refused(
            self.rt,
            "awarding more than firm power",
            Refusal::OverFirm.into(),
            self.ledger.award(PLANT, 15_001, 24_000),
        )?;
        numbered(
            self.rt,
            "the stored award",
            STORED,
            self.ledger.award(STORE, 20_000, 36_007),
        )?;
        numbered(
            self.rt,
            "the late award",
            LATE,
            self.ledger.award(LATE_PLANT, 40_000, 24_001),
        )
    }

    /// The store cedes a part of its award to the consumer; the plant has fewer kW than it would cede.
    fn trade_in_april(&mut self) -> anyhow::Result<()> {
        refused(
            self.rt,
            "ceding more than is held",
            Refusal::HoldsLess.into(),
            self.ledger.cede(BASE, PLANT, CONSUMER, 50_000),
        )?;
        accepted(
            self.rt,
            "ceding the store's kW to the consumer",
            self.ledger.cede(STORED, STORE, CONSUMER, 5_000),
        )
    }

    /// The new store starts, with kW of the plant and of the late plant.
    fn trade_in_july(&mut self) -> anyhow::Result<()> {
        self.switch("switching the new store on", NEW_STORE, true)?;
        accepted(
            self.rt,
            "ceding the plant's kW to the new store",
            self.ledger.cede(PEAK, PLANT, NEW_STORE, 7_000),
        )?;
        accepted(
            self.rt,
            "ceding the late plant's kW to the new store",
            self.ledger.cede(LATE, LATE_PLANT, NEW_STORE, 2_599),
        )
    }
}
