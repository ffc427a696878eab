//! How a calendar is made, and how it is filled with another year.
ghost use Rattle.std.specs.Prelude.{◌≡◌, ◌≤◌, ◌⊎◌, length, take, OnOk};
ghost use Rattle.calendar.specs.Judged.{judged, kept_or};
ghost use Rattle.calendar.specs.Filling.{new_calendar, given_runs, given_year, fill_rows};
ghost use Rattle.calendar.specs.Form.{array_of, IsInForm};

use super::form::{first_bad, right_share};
use super::{COMMON_YEAR, Calendar, LEAP_YEAR, MOST_RUNS};
use crate::fault::CalendarFault;
use crate::run::Run;

/// The hours of January.
const JANUARY: Run = Run { first: 0, len: 744 };
/// What stands behind the runs of a calendar.
const NO_RUN: Run = Run { first: 0, len: 0 };

impl Calendar {
    /// A common year whose stress hours are those of January.
    pub fn new() -> Calendar
        ensures value { result ≡ new_calendar }
        ensures kept { IsInForm result }
    {
        let mut runs = [NO_RUN; MOST_RUNS];
        runs[0] = JANUARY;
        Calendar {
            year_hours: COMMON_YEAR,
            runs,
            count: 1,
        }
    }

    /// Takes another year, with its runs of stress hours by their first hours and their lengths;
    /// or says why not, and stays as it was.
    pub fn fill(
        &mut self,
        year_hours: u32,
        firsts: &[u16],
        lengths: &[u16],
    ) -> Result<(), CalendarFault>
        ensures answer { result ≡ judged (fill_rows year_hours firsts.now lengths.now) tt }
        ensures after { self.new ≡ kept_or result (given_year year_hours firsts.now lengths.now) self.old }
        ensures years { OnOk result ((year_hours ≡ COMMON_YEAR) ⊎ (year_hours ≡ LEAP_YEAR)) }
        ensures most { OnOk result (length firsts.now ≤ MOST_RUNS) }
        ensures kept { IsInForm self.new }
    {
        // Where the year is refused, reading a field tells the proof what the calendar keeps.
        let _ = &self.year_hours;
        *self = year_of(year_hours, firsts, lengths)?;
        Ok(())
    }
}

/// The calendar of a year that may be taken, or the first fault that the year has.
fn year_of(year_hours: u32, firsts: &[u16], lengths: &[u16]) -> Result<Calendar, CalendarFault>
    ensures { result ≡ judged (fill_rows year_hours firsts.now lengths.now) (given_year year_hours firsts.now lengths.now) }
{
    if year_hours != COMMON_YEAR && year_hours != LEAP_YEAR {
        return Err(CalendarFault::YearHours);
    }
    let count = firsts.len();
    if count > MOST_RUNS || count != lengths.len() {
        return Err(CalendarFault::Sizes);
    }
    let runs = given_runs(firsts, lengths);
    if let Some(k) = first_bad(year_hours, &runs[..count]) {
        let place = k as u32 + 1;
        return Err(CalendarFault::Run { place });
    }
    if !right_share(year_hours, &runs[..count]) {
        return Err(CalendarFault::Share);
    }
    Ok(Calendar {
        year_hours,
        runs,
        count,
    })
}

/// The runs that are given, at the front of an array.
fn given_runs(firsts: &[u16], lengths: &[u16]) -> [Run; MOST_RUNS]
    requires few { length firsts.now ≤ 366 }
    requires even { length firsts.now ≡ length lengths.now }
    ensures front { take (length firsts.now) result ≡ given_runs firsts.now lengths.now }
    ensures whole { result ≡ array_of (given_runs firsts.now lengths.now) }
{
    let mut runs = [NO_RUN; MOST_RUNS];
    for (k, first) in firsts.iter().enumerate() {
        runs[k] = Run {
            first: *first,
            len: lengths[k],
        };
    }
    runs
}
