//! What a facility hands in for a month.
use crate::Kind;

/// What was ordered and what was delivered in one hour of a test, in kWh.
#[derive(Clone, Copy, PartialEq, Eq, Debug)]
pub struct Energy {
    pub ordered: u32,
    pub delivered: u32,
}

/// A test: its first hour, as an hour of the year, and the energy of each of its consecutive hours.
#[derive(Clone, Copy)]
pub struct Test<'a> {
    pub first: u32,
    pub hours: &'a [Energy],
}

/// A month's report: a record for each stress hour, in order, and a test or none.
#[derive(Drop)]
pub struct Report<'h, 't, K: Kind> {
    pub hours: &'h [K::Hour],
    pub test: Option<Test<'t>>,
}
