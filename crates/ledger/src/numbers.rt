//! The numbers of facilities, awards and months: they count from 1, and the places that they stand for from 0.
ghost use Rattle.std.specs.Prelude.{◌≡◌, ◌-◌, ◌<◌, ◌≤◌, cond, length, Some, None};
ghost use Rattle.std.specs.Option.{option_map};

use crate::Refusal;
use crate::course::{Call, turn};
use crate::kept::Ledger;
use crate::state::{Facility, MOST_AWARDS, MOST_FACILITIES};
use calendar::MONTHS;

/// A number from 1 to `MOST`.
#[derive(Clone, Copy, PartialEq, Eq)]
pub(crate) struct Number<const MOST: usize> {
    number: u32,
    ghost from_one: { 1 ≤ number },
    ghost within: { number ≤ MOST },
}

/// A number that a facility can have.
pub(crate) type FacilityNumber = Number<MOST_FACILITIES>;
/// A number that an award can have.
pub(crate) type AwardNumber = Number<MOST_AWARDS>;
/// The number of a month of the year.
pub(crate) type MonthNumber = Number<MONTHS>;

impl<const MOST: usize> Number<MOST> {
    ghost use Rattle.ledger.specs.Judged.{given_out};

    /// The number, if it is one of the first `count`.
    pub(crate) fn given(number: u32, count: usize) -> Option<Self>
        requires { count ≤ MOST }
        ensures { option_map (λ n. n.number) result ≡ cond (given_out number count) (Some number) None }
    {
        if number < 1 || number as usize > count {
            return None;
        }
        Some(Number { number })
    }

    /// The place of this number.
    pub(crate) fn place(self) -> usize
        ensures value { result ≡ self.entry.number - 1 }
        ensures within { result < MOST }
    {
        self.number as usize - 1
    }
}

impl Ledger {
    ghost use Rattle.ledger.specs.Judged.{judged, plainly};
    ghost use Rattle.ledger.specs.Form.{facility_at, month_of};
    ghost use Rattle.ledger.specs.Numbers.{facility_given, award_given, month_closed, admission};

    /// The facility of this number, if it was given out, for a call that belongs to the stage.
    pub(crate) fn admitted(&self, call: Call, facility: u32) -> Result<FacilityNumber, Refusal>
        ensures { plainly (λ n. n.number) result ≡ judged (admission call self.now.book facility) facility }
    {
        turn(self.book.stage, call)?;
        self.find_facility(facility)
    }

    /// The facility of this number, if it was given out.
    pub(crate) fn find_facility(&self, facility: u32) -> Result<FacilityNumber, Refusal>
        ensures { plainly (λ n. n.number) result ≡ judged (facility_given self.now.book facility) facility }
    {
        Number::given(facility, self.book.register.len()).ok_or(Refusal::NoFacility)
    }

    /// What is registered of the facility.
    pub(crate) fn facility(&self, facility: FacilityNumber) -> &Facility
        requires { facility.number ≤ length self.now.book.register.items }
        ensures { result.now ≡ facility_at self.now.book.register (facility.number - 1) }
    {
        &self.book.register[facility.place()]
    }

    /// The award of this number, if it was given out.
    pub(crate) fn find_award(&self, award: u32) -> Result<AwardNumber, Refusal>
        ensures { plainly (λ n. n.number) result ≡ judged (award_given self.now.book award) award }
    {
        Number::given(award, self.book.trade.len()).ok_or(Refusal::NoAward)
    }

    /// The month under way; month 1 before the year, and month 12 after it.
    pub(crate) fn month_under_way(&self) -> MonthNumber
        ensures { result.number ≡ month_of self.now.book.stage }
    {
        Number {
            number: self.book.stage.month(),
        }
    }

    /// The month of this number, if it is closed.
    pub(crate) fn find_month(&self, month: u32) -> Result<MonthNumber, Refusal>
        ensures { plainly (λ n. n.number) result ≡ judged (month_closed self.now.book month) month }
    {
        Number::given(month, self.closed_months() as usize).ok_or(Refusal::NotClosed)
    }
}
