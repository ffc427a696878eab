//! Claims of a month, and dismissing them.
ghost use Rattle.std.specs.Prelude.{◌≡◌, ◌∷◌};
ghost use Rattle.ledger.specs.Judged.{judged};
ghost use Rattle.ledger.specs.Claiming.{claim_of, with_claim, unclaimed_rows, answer_rows, MakesClaim, Dismisses};
ghost use Rattle.ledger.specs.Entries.{Journal, claiming, dismissing};
ghost use Rattle.ledger.specs.Runs.{Recorded};

use crate::course::Call;
use crate::kept::Ledger;
use crate::numbers::FacilityNumber;
use crate::state::{Book, Claim};
use crate::{LedgerFault, Refusal};

impl Ledger {
    /// Notes the facility's claim of the month.
    #[tactic(auto, using(crate::specs::Runs::noted))]
    pub fn claim(&mut self, facility: u32) -> Result<(), LedgerFault>
        ensures makes_claim { MakesClaim self.old.book facility result self.new.book }
        ensures recorded { (j : Journal) → Recorded j self.old → Recorded (claiming facility result ∷ j) self.new }
    {
        let facility = self.admitted(Call::Claim, facility)?;
        claimable(self.claim_of(facility))?;
        self.book.put_claim(facility, Claim::Open);
        Ok(())
    }

    /// Answers the facility's claim and leaves its report as it stands.
    #[tactic(auto, using(crate::specs::Runs::noted))]
    pub fn dismiss(&mut self, facility: u32) -> Result<(), LedgerFault>
        ensures dismisses { Dismisses self.old.book facility result self.new.book }
        ensures recorded { (j : Journal) → Recorded j self.old → Recorded (dismissing facility result ∷ j) self.new }
    {
        let facility = self.admitted(Call::Answer, facility)?;
        answerable(self.claim_of(facility))?;
        self.book.put_claim(facility, Claim::Answered);
        Ok(())
    }

    /// The facility's claim of the month.
    pub(crate) fn claim_of(&self, facility: FacilityNumber) -> Claim
        ensures { result ≡ claim_of self.now.book facility.number }
    {
        self.book.month[facility.place()].claim
    }
}

impl Book {
    /// Puts the facility's claim; all else stays.
    pub(crate) fn put_claim(&mut self, facility: FacilityNumber, claim: Claim)
        ensures { self.new ≡ with_claim self.old facility.number claim }
    {
        self.month[facility.place()].claim = claim;
    }
}

/// Refuses a second claim.
fn claimable(claim: Claim) -> Result<(), Refusal>
    ensures { result ≡ judged (unclaimed_rows claim) tt }
{
    match claim {
        Claim::None => Ok(()),
        Claim::Open | Claim::Answered => Err(Refusal::ClaimedTwice),
    }
}

/// Refuses to answer a claim that does not wait for an answer.
pub(crate) fn answerable(claim: Claim) -> Result<(), Refusal>
    ensures { result ≡ judged (answer_rows claim) tt }
{
    match claim {
        Claim::Open => Ok(()),
        Claim::None | Claim::Answered => Err(Refusal::NoClaim),
    }
}
