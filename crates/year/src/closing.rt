//! The advance and the closing of a month, and the closings that are refused for the buyers' rows.
ghost use Rattle.std.specs.Prelude.{◌≡◌, ◌%◌, Some};
ghost use Rattle.year.specs.Rules.{rule_name};
ghost use Rattle.year.specs.declared.closing.Rule.TheVariants as rule;

use crate::answers::refused;
use crate::buyers::{BUYERS, buyer, of_month};
use crate::year::Year;
use ledger::Refusal;
use sharing::{Remainder, Row, Running, SharingFault};
use std::fmt;

/// A built-in rule.
#[derive(Clone, Copy)]
pub enum Rule {
    Running,
    Remainder,
}

/// Writes its name.
impl fmt::Display for Rule {
    ghost output = { λ rule. Some (rule_name rule) };

    fn fmt<W: fmt::Write>(&self, f: &mut fmt::Formatter<W>) -> fmt::Result {
        f.pad(match self {
            Rule::Running => "running",
            Rule::Remainder => "remainder",
        })
    }
}

/// What a closing answered: the month's total, shared by a rule among the buyers.
#[derive(Clone, Copy)]
pub struct Closed {
    pub rule: Rule,
    pub total: u64,
    pub rows: [Row; BUYERS],
}

impl Year<'_> {
    /// Advances a month over its buyers, and prints its total so far.
    pub fn advance_month(&mut self, month: u32) -> anyhow::Result<()> {
        let total = self.advance(&mut of_month(month))?;
        println!(self.rt; "{:>10} {total:>12}", "advance")?;
        Ok(())
    }

    /// Closes a month over its buyers.
    pub fn close_month(&mut self, month: u32) -> anyhow::Result<Closed> {
        self.try_closing(month)?;
        let mut rows = of_month(month);
        let rule = rule_of(month);
        let total = match rule {
            Rule::Running => self.close(&Running, &mut rows),
            Rule::Remainder => self.close(&Remainder, &mut rows),
        }?;
        Ok(Closed { rule, total, rows })
    }

    /// Tries to close two of the months over rows that cannot be charged.
    fn try_closing(&mut self, month: u32) -> anyhow::Result<()> {
        let mut idle = [buyer(101, 0), buyer(102, 0)];
        let mut huge = [buyer(101, 40_000_000), buyer(102, 1)];
        match month {
            2 => refused(
                self.rt,
                "closing over buyers that consumed nothing",
                SharingFault::NoWeight.into(),
                self.ledger.close(&Remainder, &mut idle),
            ),
            5 => refused(
                self.rt,
                "closing over too many MWh",
                Refusal::RowsOutOfLimits.into(),
                self.ledger.close(&Running, &mut huge),
            ),
            _ => Ok(()),
        }
    }
}

/// The rule that a month is closed by: the running one in odd months, the other in even ones.
fn rule_of(month: u32) -> Rule
    ensures odd { month % 2 ≡ 1 → result ≡ rule.Running }
    ensures even { month % 2 ≡ 0 → result ≡ rule.Remainder }
{
    if month % 2 == 0 {
        Rule::Remainder
    } else {
        Rule::Running
    }
}
