//! Which hours of the year are stress hours, and how many a month has.
ghost use Rattle.std.specs.Prelude.{◌≡◌, ◌≤◌, length, sum_by};
ghost use Rattle.calendar.specs.Runs.{part_hours};
ghost use Rattle.calendar.specs.Form.{IsInForm};
ghost use Rattle.calendar.specs.Stress.{is_stress, stress_hours};

use super::Calendar;
use crate::run::Run;
use std::ops::Range;

impl Calendar {
    /// The runs of stress hours.
    pub fn runs(&self) -> &[Run]
        ensures value { result.now ≡ self.now.runs }
        ensures kept { IsInForm self.now }
    {
        &self.runs[..self.count]
    }

    /// Whether an hour is a stress hour.
    pub fn is_stress(&self, hour: u32) -> bool
        ensures { result ≡ is_stress self.now hour }
    {
        self.runs().iter().any(|run| run.covers(hour))
    }

    /// How many stress hours a month has.
    pub fn stress_hours_in(&self, month: u32) -> u32
        ensures value { result ≡ length (stress_hours self.now month) }
        ensures bound { result ≤ 878 }
    {
        hours_covered(self.runs(), &self.month_hours(month))
    }
}

/// How many of some hours that follow one another the runs cover.
fn hours_covered(runs: &[Run], hours: &Range<u32>) -> u32
    requires { sum_by (part_hours hours.now.start hours.now.end) runs.now ≤ 878 }
    ensures { result ≡ sum_by (part_hours hours.now.start hours.now.end) runs.now }
{
    runs.iter().map(|run| run.part_hours(hours)).sum()
}
