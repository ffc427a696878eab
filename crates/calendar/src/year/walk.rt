//! The walk through the stress hours of a month, in one pass over the runs.
ghost use Rattle.std.specs.Prelude.{◌≡◌, length};
ghost use Rattle.calendar.specs.Stress.{stress_hours};
ghost use Rattle.calendar.specs.Walk.{hours_to_come, Steps};
ghost use Rattle.std.specs.Iterator.{at_most};

use super::Calendar;
use crate::run::Run;
use std::ops::Range;
use std::slice;

/// The stress hours of a month that are still to come, in ascending order.
#[derive(Drop)]
pub struct StressHours<'a> {
    // The hours of the run under way that are still to come.
    under_way: Range<u32>,
    // The month's hours.
    month: Range<u32>,
    // The runs behind the one under way.
    runs: slice::Iter<'a, Run>,
}

impl Calendar {
    /// The stress hours of a month, in ascending order.
    pub fn stress_hours(&self, month: u32) -> StressHours<'_>
        ensures { hours_to_come result ≡ stress_hours self.now month }
    {
        StressHours {
            under_way: 0..0,
            month: self.month_hours(month),
            runs: self.runs().iter(),
        }
    }
}

impl Iterator for StressHours<'_> {
    type Item = u32;

    ghost next_gives = { Steps };

    ghost remaining = { λ w. at_most (length (hours_to_come w)) };

    fn next(&mut self) -> Option<u32> {
        loop {
            if let Some(hour) = self.under_way.next() {
                return Some(hour);
            }
            let run = self.runs.next()?;
            self.under_way = run.part(&self.month);
        }
    }
}
