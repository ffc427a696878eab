//! The course of the year: its months, one after another, in one ledger.
ghost use Rattle.ledger.specs.Form.{Dated};

use crate::answers::{accepted, refused};
use crate::facilities::PLANT;
use crate::hours::{planned, print_months};
use crate::print::print_closed;
use crate::records::Month;
use crate::year::Year;
use calendar::MONTHS;
use ledger::{Line, Refusal};

/// Keeps the whole year, and prints it.
pub fn keep_year(rt: &HostRuntime) -> anyhow::Result<()> {
    let calendar = planned(rt)?;
    let mut year = Year::new(rt);
    println!(rt; "A leap year")?;
    year.open()?;
    print_months(rt, &calendar)?;
    year.register_first()?;
    for number in 1..=MONTHS as u32 {
        let stress = calendar.stress_hours_in(number) as usize;
        year.keep_month(Month { number, stress })?;
    }
    year.end()
}

impl Year<'_> {
    /// Keeps one month, from its trading to its closing.
    fn keep_month(&mut self, month: Month) -> anyhow::Result<()>
        requires { Dated month.number }
    {
        let number = month.number;
        println!(self.rt; "Month {number}, {} stress hours", month.stress)?;
        self.trade(number)?;
        self.cut_off()?;
        self.take_reports(month)?;
        self.advance_month(number)?;
        self.answer_claims(month)?;
        let closed = self.close_month(number)?;
        self.print_lines(number)?;
        print_closed(self.rt, &closed)?;
        self.print_statement(number)
    }

    /// Meets the end of the year: calls are refused, lines are still read.
    fn end(&mut self) -> anyhow::Result<()> {
        println!(self.rt; "After the year")?;
        refused(
            self.rt,
            "a cut-off after the year",
            Refusal::YearOver.into(),
            self.ledger.cut_off(),
        )?;
        self.register_too_late()?;
        let answer = self.ledger.line(1, PLANT);
        let Line { right, penalty } = accepted(self.rt, "a line of January", answer)?;
        println!(self.rt; "the plant's January: right {right}, penalty {penalty}")?;
        self.print_totals()
    }
}
