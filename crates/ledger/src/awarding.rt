//! Awarding kW to a facility.
ghost use Rattle.std.specs.Prelude.{◌≡◌, ◌+◌, ◌≤◌, ◌↔◌, ◌∷◌, length, IsTrue, Err};
ghost use Rattle.ledger.specs.Judged.{given_out, judged, plainly};
ghost use Rattle.ledger.specs.Course.{belongs};
ghost use Rattle.ledger.specs.Awarding.{over_firm, right_award, award_rows, new_award, Awards};
ghost use Rattle.ledger.specs.Entries.{Journal, awarding};
ghost use Rattle.ledger.specs.Runs.{Recorded};

use crate::course::Call;
use crate::kept::Ledger;
use crate::numbers::FacilityNumber;
use crate::state::{Award, MOST_AWARDS, MOST_FACILITIES};
use crate::{LedgerFault, Refusal};

/// The fewest kW of an award.
const LEAST_KW: u32 = 1_000;
/// The most kW of an award.
const MOST_KW: u32 = 1_000_000;
/// The highest price, in euros a firm MW and year.
const MOST_PRICE: u32 = 100_000;

impl Ledger {
    /// Awards kW to a facility, which then holds them all, and answers the award's number.
    pub fn award(&mut self, facility: u32, kw: u32, price: u32) -> Result<u32, LedgerFault>
        ensures awards { Awards self.old.book facility kw price result self.new.book }
        ensures full { (result ≡ Err (LedgerFault.Own Refusal.NoRoom))
            ↔ (IsTrue (belongs Call.Award self.old.book.stage)
            × IsTrue (given_out facility (length self.old.book.register.items))
            × (length self.old.book.trade.items ≡ MOST_AWARDS)) }
        ensures recorded { (j : Journal) → Recorded j self.old → Recorded (awarding facility kw price result ∷ j) self.new }
    {
        let holder = self.may_award(facility, kw, price)?;
        self.book.trade.push(new_award(holder, kw, price));
        Ok(self.book.trade.len() as u32)
    }

    /// The facility, where these kW may be awarded to it at this price.
    fn may_award(&self, facility: u32, kw: u32, price: u32) -> Result<FacilityNumber, Refusal>
        ensures { plainly (λ n. n.number) result ≡ judged (award_rows self.now.book facility kw price) facility }
    {
        let facility = self.admitted(Call::Award, facility)?;
        if self.book.trade.is_full() {
            return Err(Refusal::NoRoom);
        }
        if !right_award(kw, price) {
            return Err(Refusal::OutOfLimits);
        }
        if self.over_firm(facility, kw) {
            return Err(Refusal::OverFirm);
        }
        Ok(facility)
    }

    /// Whether the facility would hold more than its firm power with these kW more.
    pub(crate) fn over_firm(&self, facility: FacilityNumber, kw: u32) -> bool
        requires { facility.number ≤ length self.now.book.register.items }
        ensures { result ≡ over_firm self.now.book facility.number kw }
    {
        let held = self.commitment(facility);
        u64::from(held) + u64::from(kw) > u64::from(self.facility(facility).firm)
    }
}

/// An award all of whose kW the facility holds.
fn new_award(holder: FacilityNumber, kw: u32, price: u32) -> Award
    ensures { result ≡ new_award holder.number kw price }
{
    let mut held = [0; MOST_FACILITIES];
    held[holder.place()] = kw;
    Award { kw, price, held }
}

/// Whether an award's kW and price are within their limits.
fn right_award(kw: u32, price: u32) -> bool
    ensures { result ≡ right_award kw price }
{
    LEAST_KW <= kw && kw <= MOST_KW && 1 <= price && price <= MOST_PRICE
}
