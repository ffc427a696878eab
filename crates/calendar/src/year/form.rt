//! Which runs of stress hours a year may have.
ghost use Rattle.std.specs.Prelude.{◌≡◌, ◌<◌, ◌≤◌, length, IfSome};
ghost use Rattle.calendar.specs.Form.{first_bad, hours, right_share};

use crate::run::Run;

/// At least one hour in so many is a stress hour.
const LEAST_ONE_IN: u64 = 20;
/// At most one hour in so many is a stress hour.
const MOST_ONE_IN: u64 = 10;

/// The index of the first run that is out of form.
pub(super) fn first_bad(year_hours: u32, runs: &[Run]) -> Option<usize>
    ensures value { result ≡ first_bad year_hours runs.now }
    ensures inside { IfSome result (λ k. k < length runs.now) }
{
    // The first hour at which the next run may begin.
    let mut free = 0;
    for (k, run) in runs.iter().enumerate() {
        let span = run.span();
        if run.len == 0 || span.end > year_hours || span.start < free {
            return Some(k);
        }
        free = span.end + 1;
    }
    None
}

/// Whether the runs have at least 5 and at most 10 per cent of the year's hours.
pub(super) fn right_share(year_hours: u32, runs: &[Run]) -> bool
    requires { length runs.now ≤ 366 }
    ensures { result ≡ right_share year_hours runs.now }
{
    let hours = u64::from(hours_of(runs));
    let year_hours = u64::from(year_hours);
    year_hours <= LEAST_ONE_IN * hours && MOST_ONE_IN * hours <= year_hours
}

/// The hours of all runs.
fn hours_of(runs: &[Run]) -> u32
    requires { length runs.now ≤ 366 }
    ensures { result ≡ hours runs.now }
{
    runs.iter().map(|run| u32::from(run.len)).sum()
}
