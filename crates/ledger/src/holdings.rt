//! Who holds how many kW. Every other part of the crate reads a facility's kW under an award here.
ghost use Rattle.std.specs.Prelude.{◌≡◌, ◌-◌, ◌<◌, ◌≤◌, length};
ghost use Rattle.ledger.specs.Form.{holdings, award_at, held_under, held_in_all};

use crate::kept::Ledger;
use crate::numbers::{AwardNumber, FacilityNumber};
use crate::state::{Award, MOST_FACILITIES};

impl Ledger {
    /// The kW that the facility holds under the award.
    pub(crate) fn held(&self, award: AwardNumber, facility: FacilityNumber) -> u32
        requires { award.number ≤ length self.now.book.trade.items }
        ensures { result ≡ held_under (facility.number - 1) (award_at self.now.book.trade (award.number - 1)) }
    {
        held_under(&self.book.trade[award.place()], facility.place())
    }

    /// The facility's commitment: the kW that it holds over all awards.
    pub(crate) fn commitment(&self, facility: FacilityNumber) -> u32
        ensures { result ≡ held_in_all self.now.book.trade (facility.number - 1) }
    {
        self.held_in_all(facility.place())
    }

    /// The kW that the facility at a place holds over all awards given out.
    pub(crate) fn held_in_all(&self, facility: usize) -> u32
        ensures { result ≡ held_in_all self.now.book.trade facility }
    {
        let awards = self.book.trade.iter();
        awards.map(|award| held_under(award, facility)).sum()
    }
}

impl Award {
    /// The kW that each facility holds under the award.
    pub(crate) fn holdings(&self) -> &[u32; MOST_FACILITIES]
        ensures { result.now ≡ holdings self.now }
    {
        &self.held
    }
}

/// The kW that the facility at a place holds under an award.
pub(crate) fn held_under(award: &Award, facility: usize) -> u32
    ensures { result ≡ held_under facility award.now }
{
    award.holdings().get(facility).copied().unwrap_or(0)
}
