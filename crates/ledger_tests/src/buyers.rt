//! The buyers' rows.
use sharing::Row;
use std::fmt::Debug;
use std::process::Abort;

/// How many buyers there are.
pub const BUYERS: usize = 3;
/// What stands in a row before it is charged.
pub const BEFORE: u64 = 99;

/// A buyer's row.
pub fn row(id: u32, mwh: u32, charge: u64) -> Row {
    Row { id, mwh, charge }
}

/// The buyers of each month, charged so.
pub fn charged(charges: [u64; BUYERS]) -> [Row; BUYERS] {
    let [first, second, third] = charges;
    [row(31, 9, first), row(32, 7, second), row(33, 5, third)]
}

/// The buyers of each month, not charged yet.
pub fn buyers() -> [Row; BUYERS] {
    charged([BEFORE; BUYERS])
}

/// Two buyers of no weight, charged so.
pub fn idle(charge: u64) -> [Row; 2] {
    [row(41, 0, charge), row(42, 0, charge)]
}

/// The rows that a call left are these.
pub fn left(rt: &impl Abort, call: impl Debug + Drop, rows: &[Row], expected: &[Row]) {
    assert_eq!(rt; rows, expected, "rows of call {call:?}");
}
