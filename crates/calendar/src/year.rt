//! The calendar: clauses see its hours and its runs, and it keeps what every calendar keeps.
ghost use Rattle.std.specs.Prelude.{◌≡◌};
ghost use Rattle.calendar.specs.Form.{IsInForm};

use crate::run::Run;
use std::marker::Model;

mod filling;
mod form;
mod months;
mod stress;
mod walk;

pub use walk::StressHours;

/// The months of a year.
pub const MONTHS: usize = 12;
/// The hours of a common year.
pub const COMMON_YEAR: u32 = 8_760;
/// The hours of a leap year.
pub const LEAP_YEAR: u32 = 8_784;
/// The most runs of stress hours that a year may have.
pub const MOST_RUNS: usize = 366;

/// The hours of one delivery year, numbered from 0 in winter time, and its runs of stress hours.
#[derive(Clone, Copy)]
pub struct Calendar {
    year_hours: u32,
    // The first `count` are the calendar's runs; those behind them have no hours.
    runs: [Run; MOST_RUNS],
    count: usize,
}

impl Model for Calendar {
    ghost use Rattle.calendar.specs.Calendar.{Calendar as Year};
    ghost use Rattle.std.specs.Prelude.{◌≡◌, length, take};
    ghost use Rattle.std.proofs.Common.{sym};
    ghost use Rattle.calendar.specs.Form.{IsInForm, array_of};

    ghost Value = { Year };

    ghost view = { λ c. record { year_hours = c.year_hours; runs = take c.count c.runs } };

    ghost invariant = { λ c. IsInForm (record { year_hours = c.year_hours; runs = take c.count c.runs })
        × (length (take c.count c.runs) ≡ c.count) × (c.runs ≡ array_of (take c.count c.runs)) };

    ghost inverse = { λ year. record { year_hours = year.year_hours; runs = array_of year.runs; count = length year.runs } };

    ghost inverse_ok = { λ c kept i. record { year_hours = c.year_hours; runs = sym kept.2 i; count = kept.1 i } };
}

impl Calendar {
    /// The hours of the year.
    pub fn year_hours(&self) -> u32
        ensures value { result ≡ self.now.year_hours }
        ensures kept { IsInForm self.now }
    {
        self.year_hours
    }
}
