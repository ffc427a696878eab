//! The year's hours, its months and its runs of stress hours.

use super::refusals::Reason;
use crate::call::Refusal;
use std::alloc::{AllocError, Global};

/// The most runs that a year may have.
const MOST_RUNS: usize = 366;

/// A year with its runs of stress hours, as an opening gives them.
#[derive(Clone, Copy)]
pub struct Calendar<'a> {
    pub year_hours: u32,
    pub firsts: &'a [u16],
    pub lengths: &'a [u16],
}

/// The hours of a month: its first, the first after it, and its stress hours in their order.
#[derive(Drop)]
pub struct MonthHours {
    pub first: u32,
    pub end: u32,
    pub stress: Vec<u32>,
}

impl Calendar<'_> {
    /// Judges whether a ledger may be opened with this calendar.
    pub fn judge(&self) -> Result<(), Refusal> {
        if self.year_hours != 8_760 && self.year_hours != 8_784 {
            return Err(Reason::YearLength.refusal());
        }
        if self.firsts.len() != self.lengths.len() || self.firsts.len() > MOST_RUNS {
            return Err(Reason::Runs.refusal());
        }
        if let Some(place) = self.first_bad_run() {
            return Err(Reason::Runs.at(place));
        }
        let stress = self.stress_hours_in_all();
        let year = u64::from(self.year_hours);
        if stress.saturating_mul(20) < year || stress.saturating_mul(10) > year {
            return Err(Reason::StressShare.refusal());
        }
        Ok(())
    }

    /// The place of the first run that is empty, ends after the year, or does not leave an hour free after the run
    /// before it.
    fn first_bad_run(&self) -> Option<u32> {
        let mut free_from = 0;
        let mut place = 0u32;
        for (first, length) in self.firsts.iter().zip(self.lengths) {
            place = place.saturating_add(1);
            let end = u32::from(*first).saturating_add(u32::from(*length));
            if *length == 0 || end > self.year_hours || u32::from(*first) < free_from {
                return Some(place);
            }
            free_from = end.saturating_add(1);
        }
        None
    }

    /// How many stress hours all runs have together.
    fn stress_hours_in_all(&self) -> u64 {
        self.lengths
            .iter()
            .fold(0u64, |sum, length| sum.saturating_add(u64::from(*length)))
    }

    /// The hours of a month.
    pub fn month_hours(&self, heap: Global, month: u32) -> Result<MonthHours, AllocError> {
        let first = self.first_hour(month);
        let end = self.first_hour(month.saturating_add(1));
        let mut stress = Vec::new(heap);
        for (run_first, length) in self.firsts.iter().zip(self.lengths) {
            let run_first = u32::from(*run_first);
            let run_end = run_first.saturating_add(u32::from(*length));
            stress.extend(run_first.max(first)..run_end.min(end))?;
        }
        Ok(MonthHours { first, end, stress })
    }

    /// The first hour of a month; the one after December begins where the year ends.
    pub fn first_hour(&self, month: u32) -> u32 {
        (1..month)
            .map(|earlier| self.days(earlier).saturating_mul(24))
            .fold(0u32, |sum, hours| sum.saturating_add(hours))
    }

    /// How many days a month has.
    fn days(&self, month: u32) -> u32 {
        match month {
            2 if self.year_hours == 8_784 => 29,
            2 => 28,
            4 | 6 | 9 | 11 => 30,
            1..=12 => 31,
            _ => 0,
        }
    }
}
