//! The stress hours of the year: its runs, the opening that takes them, and the months that they fall into.
use crate::answers::{accepted, refused};
use crate::year::Year;
use calendar::{Calendar, CalendarFault, LEAP_YEAR, MONTHS};

/// How many runs of stress hours the year has.
const RUNS: usize = 9;
/// The first hours of the runs. Two of them reach into the next month, and May and September have none.
const FIRSTS: [u16; RUNS] = [700, 1_500, 2_400, 3_900, 4_500, 5_300, 6_700, 7_500, 8_030];
/// The lengths of the runs.
const LENGTHS: [u16; RUNS] = [100, 60, 24, 48, 72, 36, 40, 30, 40];
/// Lengths by which the first run ends where the second begins.
const TOUCHING: [u16; RUNS] = [800, 60, 24, 48, 72, 36, 40, 30, 40];

impl Year<'_> {
    /// Opens the year, after an opening with runs that touch.
    pub fn open(&mut self) -> anyhow::Result<()> {
        refused(
            self.rt,
            "opening with runs that touch",
            CalendarFault::Run { place: 2 }.into(),
            self.ledger.open(LEAP_YEAR, &FIRSTS, &TOUCHING),
        )?;
        let answer = self.ledger.open(LEAP_YEAR, &FIRSTS, &LENGTHS);
        accepted(self.rt, "opening", answer)
    }
}

/// The calendar that the year is opened with.
pub fn planned(rt: &HostRuntime) -> anyhow::Result<Calendar> {
    let mut calendar = Calendar::new();
    accepted(
        rt,
        "filling the calendar",
        calendar.fill(LEAP_YEAR, &FIRSTS, &LENGTHS),
    )?;
    Ok(calendar)
}

/// Prints the months with their first hours and their stress hours.
pub fn print_months(rt: &HostRuntime, calendar: &Calendar) -> anyhow::Result<()> {
    println!(rt;
        "{:>10} {:>10} {:>12}",
        "month", "from hour", "stress hours"
    )?;
    for month in 1..=MONTHS as u32 {
        let begins = calendar.month_begins(month);
        let stress = calendar.stress_hours_in(month);
        println!(rt; "{month:>10} {begins:>10} {stress:>12}")?;
    }
    Ok(())
}
