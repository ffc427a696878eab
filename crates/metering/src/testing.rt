//! Tests: which of their hours failed, and when a test is in order.
ghost use Rattle.std.specs.Prelude.{◌≡◌, ◌+◌, ◌-◌, ◌^◌, min, not, ◌&&◌, length, position, if◌then◌else◌, Ok, Err, nat_le};
ghost use Rattle.metering.specs.Testing.{failed, failed_at, right_order, wrong_place, in_order};
ghost use Rattle.metering.specs.declared.fault.MeteringFault.TheVariants as fault;

use crate::{Energy, Kind, MeteringFault, Test};
use std::ops::Range;

/// An hour fails that delivers at most so many per cent of what was ordered.
const FAILS_AT: u64 = 95;

/// The most energy that may be ordered for an hour, in kWh.
const MOST_ORDERED: u32 = 1_000_000;

impl Energy {
    /// Whether the hour failed.
    fn has_failed(self) -> bool
        ensures { result ≡ failed self }
    {
        100 * u64::from(self.delivered) <= FAILS_AT * u64::from(self.ordered)
    }

    /// Whether the ordered energy is within its limits.
    fn has_right_order(self) -> bool
        ensures { result ≡ right_order self }
    {
        (1..=MOST_ORDERED).contains(&self.ordered)
    }
}

impl Test<'_> {
    /// Refuses a test that is not in order for the kind, in a month of these hours.
    pub(crate) fn check<K: Kind>(&self, month: Range<u32>) -> Result<(), MeteringFault>
        ensures { result
            ≡ (if in_order K.SHORTEST K.LONGEST month.start month.end self.now.first self.now.hours.now
            then Ok tt
            else Err (fault.Test (wrong_place self.now.hours.now))) }
    {
        let place = self.wrong_place();
        if place.is_none() && self.lasts::<K>() && self.lies_in(month) {
            return Ok(());
        }
        Err(MeteringFault::Test { place })
    }

    /// Whether this hour of the year is a failed hour of the test.
    pub(crate) fn failed_at(&self, hour: u32) -> bool
        ensures { result ≡ failed_at self.now.first self.now.hours.now hour }
    {
        hour.checked_sub(self.first)
            .and_then(|i| self.hours.get(i as usize))
            .is_some_and(|energy| energy.has_failed())
    }

    /// The first hour of the test whose ordered energy is outside its limits, counted from 1.
    fn wrong_place(&self) -> Option<u32>
        ensures { result ≡ wrong_place self.now.hours.now }
    {
        self.first_wrong().map(place_at)
    }

    /// The index of the first hour whose ordered energy is outside its limits.
    fn first_wrong(&self) -> Option<usize>
        ensures { result ≡ position (λ energy. not (right_order energy)) self.now.hours.now }
    {
        self.hours
            .iter()
            .position(|energy| !energy.has_right_order())
    }

    /// Whether the test is as long as the kind wants it.
    fn lasts<K: Kind>(&self) -> bool
        ensures { result ≡ (nat_le K.SHORTEST (length self.now.hours.now) && nat_le (length self.now.hours.now) K.LONGEST) }
    {
        (K::SHORTEST as usize..=K::LONGEST as usize).contains(&self.hours.len())
    }

    /// Whether the test lies in a month of these hours.
    fn lies_in(&self, month: Range<u32>) -> bool
        ensures { result ≡ (nat_le month.start self.now.first && nat_le (self.now.first + length self.now.hours.now) month.end) }
    {
        let after = u64::from(self.first).saturating_add(self.hours.len() as u64);
        month.start <= self.first && after <= u64::from(month.end)
    }
}

/// The place of what stands at an index; one beyond 32 bits is given as the largest number of 32 bits.
fn place_at(index: usize) -> u32
    ensures { result ≡ min (index + 1) (2 ^ 32 - 1) }
{
    u32::try_from(index).unwrap_or(u32::MAX).saturating_add(1)
}
