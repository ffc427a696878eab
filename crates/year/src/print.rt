//! The printed year: a month's lines, its buyers' charges, and the year's totals.
ghost use Rattle.std.specs.Prelude.{◌≡◌, ◌+◌, ◌-◌, ◌^◌, min};

use crate::answers::accepted;
use crate::closing::Closed;
use crate::year::Year;
use journal::audit;
use ledger::Line;
use sharing::Row;

impl Year<'_> {
    /// Prints each facility's right and penalty in a closed month, and what they add up to.
    pub fn print_lines(&self, month: u32) -> anyhow::Result<()> {
        println!(self.rt; "{:>10} {:>12} {:>12}", "facility", "right", "penalty")?;
        let mut all = Line::default();
        for facility in 1..=self.ledger.facilities() {
            let line = self.ledger.line(month, facility);
            let line = accepted(self.rt, "a line of the month", line)?;
            println!(self.rt; "{facility:>10} {:>12} {:>12}", line.right, line.penalty)?;
            all = both(all, line);
        }
        println!(self.rt; "{:>10} {:>12} {:>12}", "all", all.right, all.penalty)?;
        Ok(())
    }

    /// Prints what the ledger has booked so far: its closed months, and the rights and the penalties of all lines.
    pub fn print_totals(&self) -> anyhow::Result<()> {
        let totals = audit(&self.ledger);
        println!(self.rt; "{:>10} {:>12} {:>12}", "months", "rights", "penalties")?;
        println!(self.rt;
            "{:>10} {:>12} {:>12}",
            totals.months, totals.rights, totals.penalties
        )?;
        Ok(())
    }
}

/// Prints a closed month's total with its rule, and what the buyers pay.
pub fn print_closed(rt: &HostRuntime, closed: &Closed) -> anyhow::Result<()> {
    println!(rt; "{:>10} {:>12} {:>12}", "closed", closed.total, closed.rule)?;
    print_rows(rt, &closed.rows)
}

/// Prints each buyer's id, MWh and charge, and what the charges add up to.
pub fn print_rows(rt: &HostRuntime, rows: &[Row]) -> anyhow::Result<()> {
    println!(rt; "{:>10} {:>12} {:>12}", "buyer", "MWh", "charge")?;
    let mut all: u64 = 0;
    for row in rows {
        println!(rt; "{:>10} {:>12} {:>12}", row.id, row.mwh, row.charge)?;
        all = all.saturating_add(row.charge);
    }
    println!(rt; "{:>10} {:>12} {all:>12}", "all", "")?;
    Ok(())
}

/// Two lines added up.
fn both(line: Line, other: Line) -> Line
    ensures right { result.right ≡ min (line.right + other.right) (2 ^ 64 - 1) }
    ensures penalty { result.penalty ≡ min (line.penalty + other.penalty) (2 ^ 64 - 1) }
{
    Line {
        right: line.right.saturating_add(other.right),
        penalty: line.penalty.saturating_add(other.penalty),
    }
}
