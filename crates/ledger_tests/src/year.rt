//! A year that a test keeps.
use ledger::{Ledger, Line};
use std::process::Abort;
use std::test::Fail;

/// A delivery year: the ledger that it is kept in, and the runtime that ends the test where an answer is another.
#[derive(Drop)]
pub struct Year<'a, A> {
    pub rt: &'a A,
    pub ledger: Ledger,
}

impl<'a, A> Year<'a, A> {
    /// A year that is not opened yet.
    pub fn new(rt: &'a A) -> Self {
        Year {
            rt,
            ledger: Ledger::new(),
        }
    }

    /// The facility's line of the month, as it is read.
    pub fn read(&self, month: u32, facility: u32) -> Result<Line, Fail> {
        self.ledger.line(month, facility).map_err(|fault| Fail::new(format_args!(
            "no line: refused by {}",
            fault.number()
        )))
    }
}

impl<A: Abort> Year<'_, A> {
    /// The facility's line of the month is this one.
    pub fn booked(&self, month: u32, facility: u32, line: Line) -> Result<(), Fail> {
        let read = self.read(month, facility)?;
        assert_eq!(self.rt; read, line, "month {month}, facility {facility}");
        Ok(())
    }
}

/// A line of this right and this penalty.
pub fn line(right: u64, penalty: u64) -> Line {
    Line { right, penalty }
}
