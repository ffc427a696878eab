//! Cutting off: the end of a month's trading.
ghost use Rattle.std.specs.Prelude.{◌∷◌};
ghost use Rattle.ledger.specs.Cutting.{CutsOff};
ghost use Rattle.ledger.specs.Entries.{Journal, cutting};
ghost use Rattle.ledger.specs.Runs.{Recorded};

use crate::LedgerFault;
use crate::course::{Call, turn};
use crate::kept::Ledger;

impl Ledger {
    /// Ends the month's trading. From here to the closing no holding and no switch changes.
    #[tactic(auto, using(crate::specs::Runs::noted))]
    pub fn cut_off(&mut self) -> Result<(), LedgerFault>
        ensures cuts_off { CutsOff self.old.book result self.new.book }
        ensures recorded { (j : Journal) → Recorded j self.old → Recorded (cutting result ∷ j) self.new }
    {
        self.book.stage = turn(self.book.stage, Call::CutOff)?;
        Ok(())
    }
}
