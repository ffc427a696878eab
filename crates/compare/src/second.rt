//! A ledger that keeps nothing but its journal: each answer is worked out anew from the calls that were accepted.

pub mod charges;
pub mod claims;
pub mod course;
pub mod entries;
pub mod facilities;
pub mod hours;
pub mod judging;
pub mod kinds;
pub mod measures;
pub mod money;
pub mod refusals;
pub mod statements;
pub mod trading;

use crate::call::{Answer, Call, Refusal, Sort};
use course::Stage;
use entries::Entry;
use judging::Granted;
use money::{Line, Reckoning};
use refusals::{Reason, Setback, settle};
pub use statements::{read_statement, write_statement};
use std::alloc::{AllocError, Global};

/// A ledger that is its journal.
#[derive(Drop)]
pub struct Second {
    journal: Vec<Entry>,
}

/// The months closed, and all their rights and penalties.
#[derive(Clone, Copy, PartialEq, Eq, Debug)]
pub struct Totals {
    pub months: u32,
    pub rights: u64,
    pub penalties: u64,
}

impl Second {
    /// A ledger to which no call was made yet.
    pub fn new(heap: Global) -> Second {
        Second {
            journal: Vec::new(heap),
        }
    }

    /// Judges a call by the journal so far, and enters it. Where memory runs out nothing is entered.
    pub fn play(&mut self, call: Call) -> Result<Answer, AllocError> {
        let answer = self.answer_to(&call)?;
        let charges = answer.charges.clone()?;
        self.journal.push(Entry {
            call,
            value: answer.value,
            charges,
        })?;
        Ok(answer)
    }

    /// What the journal so far answers to a call.
    fn answer_to(&self, call: &Call) -> Result<Answer, AllocError> {
        let heap = self.heap();
        let judged = settle(judging::judge(heap, self.entries(), call))?;
        Ok(match judged {
            Ok(Granted { value, charges }) => Answer {
                value: Ok(value),
                charges,
            },
            Err(refusal) => Answer {
                value: Err(refusal),
                charges: Vec::new(heap),
            },
        })
    }

    /// The right and the penalty of a facility in a closed month.
    pub fn line(
        &self,
        month: u32,
        facility: u32,
    ) -> Result<Result<(u64, u64), Refusal>, AllocError> {
        settle(self.find_line(month, facility))
    }

    /// The line of a facility in a closed month, or why there is none.
    fn find_line(&self, month: u32, facility: u32) -> Result<(u64, u64), Setback> {
        let entries = self.entries();
        if Stage::after(entries) == Stage::Unopened {
            return Err(Setback::from(Reason::NotOpened));
        }
        facilities::check_number(entries, facility)?;
        if !(1..=self.closed_months()).contains(&month) {
            return Err(Setback::from(Reason::MonthNotClosed));
        }
        let Some(reckoning) = Reckoning::of(self.heap(), entries, month)? else {
            return Err(Setback::from(Reason::MonthNotClosed));
        };
        let Line { right, penalty } = reckoning.line(facility)?;
        Ok((right, penalty))
    }

    /// The kW of an award that a facility holds, where both numbers are given out.
    pub fn holding(&self, award: u32, facility: u32) -> Option<u32> {
        let entries = self.entries();
        facilities::check_number(entries, facility).ok()?;
        trading::check_number(entries, award).ok()?;
        let held = trading::held(entries, award, facility);
        Some(u32::try_from(held).unwrap_or(u32::MAX))
    }

    /// How many facilities are given out.
    pub fn facilities(&self) -> u32 {
        facilities::how_many(self.entries())
    }

    /// How many awards are given out.
    pub fn awards(&self) -> u32 {
        trading::how_many(self.entries())
    }

    /// How many months are closed.
    pub fn closed_months(&self) -> u32 {
        entries::count(self.entries(), Sort::Closing)
    }

    /// The months closed, with the sums of all rights and of all penalties in their lines.
    pub fn totals(&self) -> Result<Totals, AllocError> {
        let months = self.closed_months();
        let mut rights = 0u64;
        let mut penalties = 0u64;
        for month in 1..=months {
            let sums = self.sums(month)?;
            rights = rights.saturating_add(sums.right);
            penalties = penalties.saturating_add(sums.penalty);
        }
        Ok(Totals {
            months,
            rights,
            penalties,
        })
    }

    /// All rights and all penalties of a closed month.
    fn sums(&self, month: u32) -> Result<Line, AllocError> {
        match Reckoning::of(self.heap(), self.entries(), month)? {
            Some(reckoning) => reckoning.sums(),
            None => Ok(Line {
                right: 0,
                penalty: 0,
            }),
        }
    }

    /// The entries of the journal.
    fn entries(&self) -> &[Entry] {
        self.journal.as_slice()
    }

    /// The heap that the journal grows on.
    fn heap(&self) -> Global {
        *self.journal.allocator()
    }
}
