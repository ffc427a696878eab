//! The course of the year: the stage that the accepted calls have led to, and what may be called in it.

use super::entries::{Entry, count};
use super::refusals::Reason;
use crate::call::{Refusal, Sort};

/// How many months are closed before the ledger is finished.
pub const MONTHS: u32 = 12;

/// Where the year stands; the stages within a month have its number.
#[derive(Clone, Copy, PartialEq, Eq, Debug)]
pub enum Stage {
    Unopened,
    Trading(u32),
    Metering(u32),
    Claims(u32),
    Finished,
}

impl Stage {
    /// The stage after these entries.
    pub fn after(entries: &[Entry]) -> Stage {
        let closed = count(entries, Sort::Closing);
        let month = closed.saturating_add(1);
        if count(entries, Sort::Opening) == 0 {
            Stage::Unopened
        } else if closed == MONTHS {
            Stage::Finished
        } else if count(entries, Sort::CuttingOff) == closed {
            Stage::Trading(month)
        } else if count(entries, Sort::Advancing) == closed {
            Stage::Metering(month)
        } else {
            Stage::Claims(month)
        }
    }

    /// Judges whether a call of the sort may be made in this stage.
    pub fn admit(self, sort: Sort) -> Result<(), Refusal> {
        let reason = match (sort, self) {
            (Sort::Opening, Stage::Unopened) => return Ok(()),
            (Sort::Opening, _) => Reason::OpenedAlready,
            (_, Stage::Unopened) => Reason::NotOpened,
            (_, Stage::Finished) => Reason::Finished,
            (Sort::Registering, _) => return Ok(()),
            (Sort::Switching | Sort::Ceding | Sort::CuttingOff, Stage::Trading(_)) => return Ok(()),
            (Sort::Awarding, Stage::Trading(1)) => return Ok(()),
            (Sort::Reporting | Sort::Advancing, Stage::Metering(_)) => return Ok(()),
            (
                Sort::Claiming | Sort::Dismissing | Sort::Upholding | Sort::Closing,
                Stage::Claims(_),
            ) => return Ok(()),
            _ => Reason::OtherStage,
        };
        Err(reason.refusal())
    }

    /// The month that the stage belongs to, or 0.
    pub fn month(self) -> u32 {
        match self {
            Stage::Trading(month) | Stage::Metering(month) | Stage::Claims(month) => month,
            Stage::Unopened | Stage::Finished => 0,
        }
    }
}
