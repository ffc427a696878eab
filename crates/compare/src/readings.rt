//! What both ledgers answer when they are read.
use crate::comparison::Comparison;
use crate::counts::more;
use crate::first::refusal;
use crate::second::Totals;
use journal::audit;

/// How many lines are asked for after a year, of any month and facility.
const LINES: u32 = 40;

impl Comparison<'_> {
    /// Compares how many facilities, awards and closed months there are.
    pub fn compare_counts(&self) -> anyhow::Result<()> {
        let (ledger, second) = (&self.ledger, &self.second);
        self.compare("facilities", &ledger.facilities(), &second.facilities())?;
        self.compare("awards", &ledger.awards(), &second.awards())?;
        self.compare(
            "closed months",
            &ledger.closed_months(),
            &second.closed_months(),
        )
    }

    /// Compares all holdings, and those of numbers that are not given out.
    pub fn compare_holdings(&mut self) -> anyhow::Result<()> {
        for award in 0..=more(self.ledger.awards(), 1) {
            self.compare_holders(award)?;
        }
        Ok(())
    }

    /// Compares what each facility holds of an award.
    fn compare_holders(&mut self, award: u32) -> anyhow::Result<()> {
        for facility in 0..=more(self.ledger.facilities(), 1) {
            let first = self.ledger.holding(award, facility);
            let second = self.second.holding(award, facility);
            self.compare("a holding", &first, &second)?;
            self.counts.holdings = more(self.counts.holdings, 1);
        }
        Ok(())
    }

    /// Compares all lines of a closed month, and its statement.
    pub fn compare_month(&mut self, month: u32) -> anyhow::Result<()> {
        for facility in 0..=more(self.ledger.facilities(), 1) {
            self.compare_line(month, facility)?;
        }
        self.compare_statement_of(month)
    }

    /// Compares a line, or the refusal to answer it.
    fn compare_line(&mut self, month: u32, facility: u32) -> anyhow::Result<()> {
        let first = self
            .ledger
            .line(month, facility)
            .map(|line| (line.right, line.penalty))
            .map_err(refusal);
        let second = self.second.line(month, facility)?;
        self.compare("a line", &first, &second)?;
        if let Err(refusal) = first {
            self.counts.refusal(refusal);
        }
        self.counts.lines = more(self.counts.lines, 1);
        Ok(())
    }

    /// Compares the totals of the year, lines of any month and facility, and statements of any lines.
    pub fn compare_year(&mut self) -> anyhow::Result<()> {
        let totals = audit(&self.ledger);
        let first = Totals {
            months: totals.months,
            rights: totals.rights,
            penalties: totals.penalties,
        };
        self.compare("the totals", &first, &self.second.totals()?)?;
        for _ in 0..LINES {
            let month = self.dice.about(1, 12);
            let facility = self.dice.number(self.ledger.facilities());
            self.compare_line(month, facility)?;
        }
        self.compare_statements()
    }
}
