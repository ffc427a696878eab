//! The advance: a month's total, shared before the claims.
ghost use Rattle.std.specs.Prelude.{◌≤◌, ◌∷◌, length, OnOk};
ghost use Rattle.ledger.specs.Advancing.{Advances};
ghost use Rattle.ledger.specs.Entries.{Journal, advancing};
ghost use Rattle.ledger.specs.Runs.{Recorded};

use crate::LedgerFault;
use crate::course::{Call, turn};
use crate::kept::Ledger;
use crate::settling::share_within;
use sharing::{MOST_ROWS, Row, SharingRule};

impl Ledger {
    /// Moves on to claims, writes each buyer's charge of the month so far into its row, and answers the month's total.
    /// Nothing is booked.
    #[tactic(auto, using(crate::specs::Runs::noted))]
    pub fn advance<R: SharingRule>(
        &mut self,
        rule: &R,
        rows: &mut [Row],
    ) -> Result<u64, LedgerFault>
        ensures advances { Advances self.old.book (R.meaning rule.now) rows.old result self.new.book rows.new }
        ensures most { OnOk result (length rows.old ≤ MOST_ROWS) }
        ensures recorded { (j : Journal) → Recorded j self.old →
            Recorded (advancing (R.meaning rule.now) rows.old result rows.new ∷ j) self.new }
    {
        let stage = turn(self.book.stage, Call::Advance)?;
        let (_, total) = self.settle();
        let total = share_within(rule, total, rows)?;
        self.book.stage = stage;
        Ok(total)
    }
}
