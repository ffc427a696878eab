//! The kinds of facilities: the letter of each, how long its tests are, and what an hour's record is worth.

use crate::call::Kind;
use std::ops::RangeInclusive;

impl Kind {
    /// The letter that facilities of this kind are registered with.
    pub fn letter(self) -> u8 {
        match self {
            Kind::Thermal => b'T',
            Kind::Storage => b'S',
            Kind::Demand => b'D',
        }
    }

    /// How many hours a test may have.
    pub fn test_hours(self) -> RangeInclusive<usize> {
        match self {
            Kind::Thermal => 3..=24,
            Kind::Storage => 1..=1,
            Kind::Demand => 1..=3,
        }
    }

    /// The kW that an hour's record is worth under a commitment. The figures are declared and least stable kW of a
    /// thermal plant, power and stored kWh of a store, consumption and residual kW of a consumer.
    pub fn credit(self, record: (u32, u32), commitment: u64) -> u64 {
        let (first, second) = record;
        let offered = match self {
            Kind::Thermal if first < second => 0,
            Kind::Thermal => first,
            Kind::Storage => first.min(second),
            Kind::Demand => first.saturating_sub(second),
        };
        u64::from(offered).min(commitment)
    }
}
