//! The calendar of stress hours of one delivery year: its hours and months, its runs of stress
//! hours, and the walk through those of a month.

#![tactic(auto)]

mod fault;
mod run;
mod year;

pub use fault::CalendarFault;
pub use run::Run;
pub use year::{COMMON_YEAR, Calendar, LEAP_YEAR, MONTHS, MOST_RUNS, StressHours};
