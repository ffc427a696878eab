//! Two implementations of the ledger, the library and one that was written after the rules alone, are played by the same
//! pseudo-random calls, and all that they answer is compared. The first argument says how many years are played.

#![tactic(auto)]

mod calendars;
mod call;
mod charging;
mod comparison;
mod counts;
mod dice;
mod first;
mod january;
mod notes;
mod readings;
mod reports;
mod second;
mod statements;
mod trading;
mod years;

use comparison::Comparison;
use std::env;

/// How many years are played where no argument says it.
const YEARS: u32 = 200;

fn main(rt: HostRuntime) -> anyhow::Result<()> {
    let years = wanted(&rt)?;
    let mut comparison = Comparison::new(&rt);
    comparison.play_january()?;
    for seed in 1..=years {
        comparison.play_year(seed)?;
    }
    println!(rt; "no difference in")?;
    comparison.counts.print(&rt)
}

/// How many years are to be played.
fn wanted(rt: &HostRuntime) -> anyhow::Result<u32> {
    match env::args(rt)?.nth(1) {
        Some(years) => Ok(years.parse()?),
        None => Ok(YEARS),
    }
}
