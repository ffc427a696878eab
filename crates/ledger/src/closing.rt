//! Closing a month.
ghost use Rattle.std.specs.Prelude.{◌≡◌, ◌≤◌, ◌∷◌, length, OnOk};
ghost use Rattle.ledger.specs.Judged.{judged};
ghost use Rattle.ledger.specs.Course.{moved};
ghost use Rattle.ledger.specs.declared.course.Call.TheVariants as made;
ghost use Rattle.ledger.specs.Closing.{some_open, unsettled_rows, booked_month, Closes};
ghost use Rattle.ledger.specs.Entries.{Journal, closing};
ghost use Rattle.ledger.specs.Runs.{Recorded};

use crate::course::{Call, turn};
use crate::kept::Ledger;
use crate::making::NEW_MONTH;
use crate::numbers::MonthNumber;
use crate::settling::share_within;
use crate::state::{Book, Claim, Line, MOST_FACILITIES, Stage};
use crate::{LedgerFault, Refusal};
use sharing::{MOST_ROWS, Row, SharingRule};

impl Ledger {
    /// Books the month, writes each buyer's charge into its row, starts the next month, and answers the month's total.
    #[tactic(auto, using(crate::specs::Runs::noted))]
    pub fn close<R: SharingRule>(&mut self, rule: &R, rows: &mut [Row]) -> Result<u64, LedgerFault>
        ensures closes { Closes self.old.book (R.meaning rule.now) rows.old result self.new.book rows.new }
        ensures most { OnOk result (length rows.old ≤ MOST_ROWS) }
        ensures recorded { (j : Journal) → Recorded j self.old →
            Recorded (closing (R.meaning rule.now) rows.old result rows.new ∷ j) self.new }
    {
        let stage = self.may_close()?;
        let (lines, total) = self.settle();
        let total = share_within(rule, total, rows)?;
        let month = self.month_under_way();
        self.book.book_month(month, lines, stage);
        Ok(total)
    }

    /// The stage that follows, where the month may be closed but for the rows.
    fn may_close(&self) -> Result<Stage, Refusal>
        ensures { result ≡ judged (unsettled_rows self.now.book) (moved made.Close self.now.book.stage) }
    {
        let stage = turn(self.book.stage, Call::Close)?;
        if self.some_open() {
            return Err(Refusal::ClaimOpen);
        }
        Ok(stage)
    }

    /// Whether some claim waits for an answer.
    fn some_open(&self) -> bool
        ensures { result ≡ some_open self.now.book.month }
    {
        self.book
            .month
            .iter()
            .any(|filed| filed.claim == Claim::Open)
    }
}

impl Book {
    /// Books the lines of the month, ends the reports and claims, and moves on to the stage.
    fn book_month(&mut self, month: MonthNumber, lines: [Line; MOST_FACILITIES], stage: Stage)
        ensures { self.new ≡ booked_month self.old month.number lines stage }
    {
        self.lines.months[month.place()] = lines;
        self.month = NEW_MONTH;
        self.stage = stage;
    }
}
