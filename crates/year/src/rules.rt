//! What buyers pay by the two built-in rules, side by side.
ghost use Rattle.sharing.specs.Rows.{mwhs};
ghost use Rattle.sharing.specs.Rule.{Shareable};

use crate::answers::accepted;
use crate::buyers::{WINTER, buyer, buyers};
use sharing::{Remainder, Row, Running, SharingRule};

/// What the buyers owe together, in cents.
const MONTH: u64 = 9_645_162;

/// Prints a month's total by both rules over the buyers of the winter, and 100 cents over three equal buyers.
pub fn print_both(rt: &HostRuntime) -> anyhow::Result<()> {
    println!(rt; "{MONTH} cents over the buyers of a winter month")?;
    let mut running = buyers(WINTER);
    let mut remainder = buyers(WINTER);
    share_and_print(rt, MONTH, &mut running, &mut remainder)?;
    println!(rt; "100 cents over three equal buyers")?;
    let equal = [buyer(1, 1), buyer(2, 1), buyer(3, 1)];
    let mut running = equal;
    let mut remainder = equal;
    share_and_print(rt, 100, &mut running, &mut remainder)
}

/// Shares the total over each copy of the rows, by the running rule and by the largest remainder, and prints both.
fn share_and_print(
    rt: &HostRuntime,
    total: u64,
    running: &mut [Row],
    remainder: &mut [Row],
) -> anyhow::Result<()>
    requires running { Shareable total (mwhs running.old) }
    requires remainder { Shareable total (mwhs remainder.old) }
{
    accepted(rt, "sharing, running", Running.share(total, running))?;
    accepted(rt, "sharing, remainder", Remainder.share(total, remainder))?;
    print_charges(rt, running, remainder)
}

/// Prints each buyer's id, MWh and charge by either rule, and what the charges add up to.
fn print_charges(rt: &HostRuntime, running: &[Row], remainder: &[Row]) -> anyhow::Result<()> {
    let mut all: u64 = 0;
    let mut also: u64 = 0;
    println!(rt;
        "{:>10} {:>12} {:>12} {:>12}",
        "buyer", "MWh", "running", "remainder"
    )?;
    for (row, other) in running.iter().zip(remainder.iter()) {
        println!(rt;
            "{:>10} {:>12} {:>12} {:>12}",
            row.id, row.mwh, row.charge, other.charge
        )?;
        all = all.saturating_add(row.charge);
        also = also.saturating_add(other.charge);
    }
    println!(rt; "{:>10} {:>12} {:>12} {:>12}", "all", "", all, also)?;
    Ok(())
}
