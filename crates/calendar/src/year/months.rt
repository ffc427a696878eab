//! The months of the year, Gregorian ones: February has a 29th day where the year has 8,784 hours.
ghost use Rattle.std.specs.Prelude.{◌≡◌, ◌*◌, ◌<◌, ◌≤◌, sum};
ghost use Rattle.calendar.specs.Months.{days, first_months, month_begins, month_ends};

use super::{Calendar, LEAP_YEAR, MONTHS};
use std::ops::Range;

/// The hours of a day, also where clocks elsewhere change: the calendar keeps winter time.
const HOURS_A_DAY: u32 = 24;

impl Calendar {
    /// The first hour of a month, counted from 1. The months 0 and 13 and on have no hours: they
    /// begin where they end, at the year's beginning and at its end.
    pub fn month_begins(&self, month: u32) -> u32
        ensures value { result ≡ month_begins self.now.year_hours month }
        ensures bound { result ≤ self.now.year_hours }
        ensures most { result ≤ 8_784 }
    {
        self.first_months(month.saturating_sub(1))
    }

    /// The hour after a month's last.
    pub fn month_ends(&self, month: u32) -> u32
        ensures value { result ≡ month_ends self.now.year_hours month }
        ensures bound { result ≤ self.now.year_hours }
        ensures most { result ≤ 8_784 }
    {
        self.first_months(month)
    }

    /// The hours of a month, from its first on and before the next month's.
    pub fn month_hours(&self, month: u32) -> Range<u32>
        ensures begins { result.start ≡ month_begins self.now.year_hours month }
        ensures ends { result.end ≡ month_ends self.now.year_hours month }
        ensures bound { result.end ≤ self.now.year_hours }
        ensures most { result.end ≤ 8_784 }
        ensures outside { MONTHS < month → result.start ≡ result.end }
    {
        self.month_begins(month)..self.month_ends(month)
    }

    /// The hours of so many months from the first on, of which there are twelve.
    fn first_months(&self, months: u32) -> u32
        ensures value { result ≡ first_months self.now.year_hours months }
        ensures bound { result ≤ self.now.year_hours }
        ensures most { result ≤ 8_784 }
    {
        let days = self.days();
        let months = MONTHS.min(months as usize);
        hours_of(&days[..months])
    }

    /// The days of each month.
    fn days(&self) -> [u32; MONTHS]
        ensures value { result ≡ days self.now.year_hours }
        ensures whole { 24 * sum result ≡ self.now.year_hours }
        ensures most { self.now.year_hours ≤ 8_784 }
    {
        let february = if self.year_hours == LEAP_YEAR { 29 } else { 28 };
        [31, february, 31, 30, 31, 30, 31, 31, 30, 31, 30, 31]
    }
}

/// The hours of so many days.
fn hours_of(days: &[u32]) -> u32
    requires { sum days.now ≤ 366 }
    ensures { result ≡ 24 * sum days.now }
{
    HOURS_A_DAY * days.iter().sum::<u32>()
}
