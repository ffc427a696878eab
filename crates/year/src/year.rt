//! A year that is kept and printed, and the calls of its ledger that are to be accepted.
use crate::answers::accepted;
use crate::reports::hand_in;
use ledger::Ledger;
use metering::{Kind, Test};
use sharing::{Row, Running, SharingRule};

/// A delivery year: the ledger that it is kept in, and the runtime that prints what becomes of it.
#[derive(Drop)]
pub struct Year<'a> {
    pub rt: &'a HostRuntime,
    pub ledger: Ledger,
}

impl<'a> Year<'a> {
    /// A year that is not opened yet.
    pub fn new(rt: &'a HostRuntime) -> Self {
        Year {
            rt,
            ledger: Ledger::new(),
        }
    }

    /// Switches a facility.
    pub fn switch(&mut self, call: &str, facility: u32, on: bool) -> anyhow::Result<()> {
        accepted(self.rt, call, self.ledger.switch(facility, on))
    }

    /// Takes a facility's report.
    pub fn report<K: Kind>(
        &mut self,
        call: &str,
        facility: u32,
        hours: &[K::Hour],
        test: Option<Test>,
    ) -> anyhow::Result<()> {
        let answer = hand_in::<K>(&mut self.ledger, facility, hours, test);
        accepted(self.rt, call, answer)
    }

    /// Ends the trading of the month.
    pub fn cut_off(&mut self) -> anyhow::Result<()> {
        accepted(self.rt, "the cut-off", self.ledger.cut_off())
    }

    /// Advances the month by the running rule, and answers its total so far.
    pub fn advance(&mut self, rows: &mut [Row]) -> anyhow::Result<u64> {
        accepted(self.rt, "the advance", self.ledger.advance(&Running, rows))
    }

    /// Closes the month, and answers its total.
    pub fn close<R: SharingRule>(&mut self, rule: &R, rows: &mut [Row]) -> anyhow::Result<u64> {
        accepted(self.rt, "the closing", self.ledger.close(rule, rows))
    }
}
