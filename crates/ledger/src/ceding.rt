//! Ceding kW of an award from one facility to another.
ghost use Rattle.std.specs.Prelude.{◌≡◌, ℕ, ◌+◌, ◌-◌, ◌≤◌, ◌∷◌, ◌≢◌, slice_index};
ghost use Rattle.ledger.specs.Judged.{judged, plainly};
ghost use Rattle.ledger.specs.Ceding.{cede_rows, shifted, with_held, Cedes};
ghost use Rattle.ledger.specs.Entries.{Journal, ceding};
ghost use Rattle.ledger.specs.Runs.{Recorded};

use crate::course::{Call, turn};
use crate::kept::Ledger;
use crate::numbers::{AwardNumber, FacilityNumber};
use crate::state::Award;
use crate::{LedgerFault, Refusal};

impl Ledger {
    /// Moves kW of an award from the giver to the taker.
    pub fn cede(&mut self, award: u32, giver: u32, taker: u32, kw: u32) -> Result<(), LedgerFault>
        ensures cedes { Cedes self.old.book award giver taker kw result self.new.book }
        ensures recorded { (j : Journal) → Recorded j self.old → Recorded (ceding award giver taker kw result ∷ j) self.new }
    {
        let (award, giver, taker) = self.may_cede(award, giver, taker, kw)?;
        shift(&mut self.book.trade[award.place()], giver, taker, kw);
        Ok(())
    }

    /// The award, the giver and the taker, where these kW may be ceded.
    fn may_cede(
        &self,
        award: u32,
        giver: u32,
        taker: u32,
        kw: u32,
    ) -> Result<(AwardNumber, FacilityNumber, FacilityNumber), Refusal>
        ensures { plainly {B = ℕ × ℕ × ℕ} (λ n. (n.0.number, n.1.number, n.2.number)) result
            ≡ judged (cede_rows self.now.book award giver taker kw) (award, giver, taker) }
    {
        turn(self.book.stage, Call::Cede)?;
        let giver = self.find_facility(giver)?;
        let taker = self.find_facility(taker)?;
        let award = self.find_award(award)?;
        if kw == 0 {
            return Err(Refusal::OutOfLimits);
        }
        if giver == taker {
            return Err(Refusal::GiverIsTaker);
        }
        if !self.facility(taker).on {
            return Err(Refusal::TakerOff);
        }
        if self.held(award, giver) < kw {
            return Err(Refusal::HoldsLess);
        }
        if self.over_firm(taker, kw) {
            return Err(Refusal::OverFirm);
        }
        Ok((award, giver, taker))
    }
}

/// Moves kW of the award from the giver to the taker.
fn shift(award: &mut Award, giver: FacilityNumber, taker: FacilityNumber, kw: u32)
    requires apart { taker.number ≢ giver.number }
    requires holds { kw ≤ slice_index award.old.held (giver.number - 1) }
    requires room { slice_index award.old.held (taker.number - 1) + kw ≤ 1_000_000 }
    ensures { award.new ≡ with_held award.old (shifted award.old.held (giver.number - 1) (taker.number - 1) kw) }
{
    award.held[giver.place()] -= kw;
    award.held[taker.place()] += kw;
}
