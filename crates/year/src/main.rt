//! A delivery year, kept in a ledger and printed: its stress hours, month by month its lines, its total and what the
//! buyers pay, with the refusals met on the way, and the year's totals. Before it the worked figures, which are proved,
//! the worked January, which is checked, and the worked run; after it the two built-in rules side by side.

#![tactic(auto)]

mod answers;
mod buyers;
mod claims;
mod closing;
mod facilities;
mod hours;
mod january;
mod months;
mod print;
mod records;
mod reports;
mod rules;
mod run;
mod statements;
mod trading;
mod year;

use figures::{worked_figures, worked_laws};

fn main(rt: HostRuntime) -> anyhow::Result<()> {
    settle(&rt)
}

fn settle(rt: &HostRuntime) -> anyhow::Result<()> {
    worked_figures();
    worked_laws();
    january::check_january(rt)?;
    run::print_run(rt)?;
    months::keep_year(rt)?;
    rules::print_both(rt)
}
