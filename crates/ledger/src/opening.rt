//! Opening the year with its calendar.
ghost use Rattle.std.specs.Prelude.{◌∷◌};
ghost use Rattle.ledger.specs.Opening.{Opens};
ghost use Rattle.ledger.specs.Entries.{Journal, opening};
ghost use Rattle.ledger.specs.Runs.{Recorded};

use crate::LedgerFault;
use crate::course::{Call, turn};
use crate::kept::Ledger;

impl Ledger {
    /// Fills the calendar and starts month 1 in trading.
    #[tactic(auto, using(crate::specs::Runs::noted))]
    pub fn open(
        &mut self,
        year_hours: u32,
        firsts: &[u16],
        lengths: &[u16],
    ) -> Result<(), LedgerFault>
        ensures opens { Opens self.old.book year_hours firsts.now lengths.now result self.new.book }
        ensures recorded { (j : Journal) → Recorded j self.old →
            Recorded (opening year_hours firsts.now lengths.now result ∷ j) self.new }
    {
        let stage = turn(self.book.stage, Call::Open)?;
        self.book.calendar.fill(year_hours, firsts, lengths)?;
        self.book.stage = stage;
        Ok(())
    }
}
