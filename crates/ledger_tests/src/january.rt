//! The calls of January, by their numbers in docs/RULES.md, 'A run of calls with all answers'; `metered` has the reports.
use crate::answers::{accepted, barred, refused};
use crate::buyers::{BEFORE, buyers, charged, idle, left, row};
use crate::year::{Year, line};
use calendar::LEAP_YEAR;
use ledger::{MOST_MODULES, Module};
use sharing::{Remainder, Row, Running};
use std::process::Abort;
use std::test::Fail;

/// The first hours of the runs of stress hours.
pub const FIRSTS: [u16; 2] = [700, 1_500];
/// The lengths of the runs.
pub const LENGTHS: [u16; 2] = [100, 340];

impl<A: Abort> Year<'_, A> {
    /// January, from the opening to the lines that are read after its closing.
    pub fn keep_january(&mut self) -> Result<(), Fail> {
        self.open()?;
        self.register()?;
        self.award()?;
        self.cede()?;
        self.report_early()?;
        self.cut_off()?;
        self.report_january()?;
        self.advance()?;
        self.claim()?;
        self.close()?;
        self.read_lines()
    }

    /// Calls 1 to 6.
    fn open(&mut self) -> Result<(), Fail> {
        barred(self.rt, 1, self.ledger.line(1, 1), 1)?;
        let answer = self.ledger.open(8_761, &[0], &[744]);
        refused(self.rt, 2, answer, 3, "calendar", 0)?;
        let answer = self.ledger.open(LEAP_YEAR, &[700, 800], &LENGTHS);
        refused(self.rt, 3, answer, 4, "calendar", 2)?;
        let answer = self.ledger.open(LEAP_YEAR, &FIRSTS, &[100, 339]);
        refused(self.rt, 4, answer, 5, "calendar", 0)?;
        let answer = self.ledger.open(LEAP_YEAR, &FIRSTS, &LENGTHS);
        accepted(self.rt, 5, answer, ())?;
        let answer = self.ledger.open(LEAP_YEAR, &FIRSTS, &LENGTHS);
        barred(self.rt, 6, answer, 2)
    }

    /// Calls 7 to 9.
    fn register(&mut self) -> Result<(), Fail> {
        let none = Module::default();
        let two = [Module::new(3_000, 700), Module::new(1_001, 900), none, none];
        accepted(self.rt, 7, self.ledger.register(b'S', two, 2, 5_000), 1)?;
        let one = [Module::new(2_000, 1_000), none, none, none];
        accepted(self.rt, 8, self.ledger.register(b'D', one, 1, 2_000), 2)?;
        barred(self.rt, 9, self.ledger.register(b'a', one, 1, 2_000), 11)
    }

    /// Calls 10 to 14.
    fn award(&mut self) -> Result<(), Fail> {
        barred(self.rt, 10, self.ledger.award(3, 1, 1), 8)?;
        barred(self.rt, 11, self.ledger.award(1, 999, 24_001), 11)?;
        barred(self.rt, 12, self.ledger.award(1, 3_001, 24_001), 15)?;
        accepted(self.rt, 13, self.ledger.award(1, 1_000, 24_001), 1)?;
        accepted(self.rt, 14, self.ledger.award(1, 2_000, 36_007), 2)
    }

    /// Calls 15 to 21, and who holds how many kW after call 17.
    fn cede(&mut self) -> Result<(), Fail> {
        barred(self.rt, 15, self.ledger.cede(1, 1, 2, 501), 13)?;
        accepted(self.rt, 16, self.ledger.switch(2, true), ())?;
        accepted(self.rt, 17, self.ledger.cede(1, 1, 2, 501), ())?;
        self.hold();
        barred(self.rt, 18, self.ledger.cede(1, 1, 2, 500), 14)?;
        barred(self.rt, 19, self.ledger.cede(3, 1, 1, 0), 9)?;
        barred(self.rt, 20, self.ledger.cede(1, 1, 1, 0), 11)?;
        accepted(self.rt, 21, self.ledger.switch(1, true), ())
    }

    /// Facility 1 holds 499 and 2,000 kW, facility 2 holds 501; there are two of each.
    fn hold(&self) {
        assert_eq!(self.rt; self.ledger.holding(1, 1), Some(499));
        assert_eq!(self.rt; self.ledger.holding(2, 1), Some(2_000));
        assert_eq!(self.rt; self.ledger.holding(1, 2), Some(501));
        assert_eq!(self.rt; self.ledger.holding(2, 2), Some(0));
        assert_eq!(self.rt; self.ledger.holding(3, 1), None);
        assert_eq!(self.rt; self.ledger.holding(1, 3), None);
    }

    /// Calls 23 and 24; the cessions that were refused have moved nothing.
    fn cut_off(&mut self) -> Result<(), Fail> {
        accepted(self.rt, 23, self.ledger.cut_off(), ())?;
        barred(self.rt, 24, self.ledger.cede(1, 1, 2, 1), 7)?;
        self.hold();
        Ok(())
    }

    /// Calls 30 to 32.
    fn advance(&mut self) -> Result<(), Fail> {
        let mut rows = idle(BEFORE);
        let answer = self.ledger.advance(&Remainder, &mut rows);
        refused(self.rt, 30, answer, 23, "sharing", 0)?;
        left(self.rt, 30, &rows, &idle(BEFORE));
        let huge = [row(1, 40_000_000, BEFORE), row(2, 1, BEFORE)];
        let mut rows = huge;
        barred(self.rt, 31, self.ledger.advance(&Running, &mut rows), 22)?;
        left(self.rt, 31, &rows, &huge);
        let mut rows = buyers();
        let answer = self.ledger.advance(&Running, &mut rows);
        accepted(self.rt, 32, answer, 684_012)?;
        left(self.rt, 32, &rows, &charged([293_148, 228_004, 162_860]));
        Ok(())
    }

    /// Calls 33 to 41.
    fn claim(&mut self) -> Result<(), Fail> {
        let mut none: [Row; 0] = [];
        let answer = self.ledger.close(&Running, &mut none);
        refused(self.rt, 33, answer, 23, "sharing", 0)?;
        barred(self.rt, 34, self.uphold(600), 20)?;
        accepted(self.rt, 35, self.ledger.claim(2), ())?;
        barred(self.rt, 36, self.ledger.claim(2), 19)?;
        let mut rows = buyers();
        barred(self.rt, 37, self.ledger.close(&Remainder, &mut rows), 21)?;
        left(self.rt, 37, &rows, &buyers());
        refused(self.rt, 38, self.uphold(742), 18, "metering", 0)?;
        accepted(self.rt, 39, self.uphold(600), ())?;
        barred(self.rt, 40, self.ledger.dismiss(2), 20)?;
        barred(self.rt, 41, self.ledger.claim(2), 19)
    }

    /// Call 42.
    fn close(&mut self) -> Result<(), Fail> {
        let mut rows = buyers();
        let answer = self.ledger.close(&Remainder, &mut rows);
        accepted(self.rt, 42, answer, 762_239)?;
        left(self.rt, 42, &rows, &charged([326_674, 254_080, 181_485]));
        Ok(())
    }

    /// Calls 43 to 49.
    fn read_lines(&mut self) -> Result<(), Fail> {
        self.booked(1, 1, line(699_919, 15_907))?;
        self.booked(1, 2, line(100_205, 21_978))?;
        barred(self.rt, 45, self.ledger.line(2, 1), 24)?;
        barred(self.rt, 46, self.ledger.line(2, 3), 8)?;
        barred(self.rt, 47, self.ledger.award(3, 1_000, 1), 7)?;
        let nothing = [Module::default(); MOST_MODULES];
        accepted(self.rt, 48, self.ledger.register(b'T', nothing, 1, 0), 3)?;
        self.booked(1, 3, line(0, 0))
    }
}
