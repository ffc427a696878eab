//! Switching a facility on or off.
ghost use Rattle.std.specs.Prelude.{◌≡◌, ◌∷◌};
ghost use Rattle.ledger.specs.Switching.{set_on, Switches};
ghost use Rattle.ledger.specs.Entries.{Journal, switching};
ghost use Rattle.ledger.specs.Runs.{Recorded};

use crate::LedgerFault;
use crate::course::Call;
use crate::kept::Ledger;
use crate::state::Facility;

impl Ledger {
    /// Puts a facility's switch; all others stay.
    #[tactic(auto, using(crate::specs::Runs::noted))]
    pub fn switch(&mut self, facility: u32, on: bool) -> Result<(), LedgerFault>
        ensures switches { Switches self.old.book facility on result self.new.book }
        ensures recorded { (j : Journal) → Recorded j self.old → Recorded (switching facility on result ∷ j) self.new }
    {
        let facility = self.admitted(Call::Switch, facility)?;
        set_on(&mut self.book.register[facility.place()], on);
        Ok(())
    }
}

/// Sets the facility on or off.
fn set_on(facility: &mut Facility, on: bool)
    ensures { facility.new ≡ set_on facility.old on }
{
    facility.on = on;
}
