//! Readings of a ledger: they refuse nothing and change nothing.
ghost use Rattle.std.specs.Prelude.{◌≡◌, ◌↔◌, length, All};
ghost use Rattle.ledger.specs.Form.{Bounded};
ghost use Rattle.ledger.specs.Lines.{closed_months};
ghost use Rattle.ledger.specs.Readings.{holding_of, lines_or_zeros};

use crate::kept::Ledger;
use crate::state::{Line, MOST_FACILITIES, Stage};
use calendar::MONTHS;

impl Ledger {
    /// How far the year is.
    pub fn stage(&self) -> Stage
        ensures { result ≡ self.now.book.stage }
    {
        self.book.stage
    }

    /// How many facilities are registered.
    pub fn facilities(&self) -> u32
        ensures { result ≡ length self.now.book.register.items }
    {
        self.book.register.len() as u32
    }

    /// How many awards are taken.
    pub fn awards(&self) -> u32
        ensures { result ≡ length self.now.book.trade.items }
    {
        self.book.trade.len() as u32
    }

    /// How many months are closed.
    pub fn closed_months(&self) -> u32
        ensures value { result ≡ closed_months self.now.book.stage }
        ensures over { (result ≡ MONTHS) ↔ (self.now.book.stage ≡ Stage.Finished) }
    {
        self.stage().closed_months()
    }

    /// The kW that a facility holds under an award; nothing where either number was not given out.
    pub fn holding(&self, award: u32, facility: u32) -> Option<u32>
        ensures { result ≡ holding_of self.now.book award facility }
    {
        let award = self.find_award(award).ok()?;
        let facility = self.find_facility(facility).ok()?;
        Some(self.held(award, facility))
    }

    /// The lines of the closed months, in their order: of each month one for every number that a facility can have, two
    /// zeros for one that was not given out by then.
    pub fn lines_or_zeros(&self) -> &[[Line; MOST_FACILITIES]]
        ensures value { result.now ≡ lines_or_zeros self.now.book }
        ensures bound { All (All Bounded) result.now }
    {
        &self.book.lines.months[..self.closed_months() as usize]
    }
}
