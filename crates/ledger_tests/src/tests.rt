//! The run of docs/RULES.md, 'A run of calls with all answers', over its whole year; and a year without awards.
use crate::answers::{accepted, barred};
use crate::buyers::{BEFORE, BUYERS, buyers, charged, idle, left};
use crate::january::{FIRSTS, LENGTHS};
use crate::year::{Year, line};
use calendar::{LEAP_YEAR, MONTHS};
use ledger::{Line, MOST_MODULES, Module};
use sharing::{Remainder, Row, Running, SharingRule};
use std::process::Abort;
use std::test::Fail;

/// What a month comes to.
#[derive(Clone, Copy)]
struct Month {
    number: u32,
    /// The lines of facilities 1 and 2.
    lines: [Line; 2],
    /// What the buyers owe together.
    total: u64,
    /// What each of them is charged.
    charges: [u64; BUYERS],
}

/// A month without a penalty.
fn full(number: u32, rights: [u64; 2], total: u64, charges: [u64; BUYERS]) -> Month {
    let [first, second] = rights;
    Month {
        number,
        lines: [line(first, 0), line(second, 0)],
        total,
        charges,
    }
}

/// A month in which both facilities lose their whole rights.
fn lost(number: u32, rights: [u64; 2]) -> Month {
    let [first, second] = rights;
    Month {
        lines: [line(first, first), line(second, second)],
        ..full(number, rights, 0, [0; BUYERS])
    }
}

/// The months after January.
fn months() -> [Month; 11] {
    [
        lost(2, [699_920, 100_205]),
        lost(3, [699_921, 100_205]),
        full(4, [699_919, 100_205], 800_124, [342_910, 266_708, 190_506]),
        full(5, [699_920, 100_205], 800_125, [342_910, 266_709, 190_506]),
        full(6, [699_921, 100_205], 800_126, [342_911, 266_708, 190_507]),
        full(7, [699_919, 100_205], 800_124, [342_910, 266_708, 190_506]),
        full(8, [699_920, 100_205], 800_125, [342_910, 266_709, 190_506]),
        full(9, [699_921, 100_205], 800_126, [342_911, 266_708, 190_507]),
        full(10, [699_919, 100_205], 800_124, [342_910, 266_708, 190_506]),
        full(11, [699_920, 100_205], 800_125, [342_910, 266_709, 190_506]),
        full(12, [699_921, 100_205], 800_126, [342_911, 266_708, 190_507]),
    ]
}

/// Two lines added up.
fn both(first: Line, second: Line) -> Line {
    line(
        first.right.saturating_add(second.right),
        first.penalty.saturating_add(second.penalty),
    )
}

impl<A> Year<'_, A> {
    /// The lines of a facility, added up over the year.
    fn all_of(&self, facility: u32) -> Result<Line, Fail> {
        let mut all = Line::default();
        for month in 1..=MONTHS as u32 {
            all = both(all, self.read(month, facility)?);
        }
        Ok(all)
    }
}

impl<A: Abort> Year<'_, A> {
    /// Keeps a month in which nobody reports, by its three calls: before the claims and after them it comes to this
    /// total, and the buyers are charged so.
    fn keep_month<R: SharingRule, const N: usize>(
        &mut self,
        month: u32,
        rule: &R,
        before: [Row; N],
        total: u64,
        after: [Row; N],
    ) -> Result<(), Fail> {
        accepted(self.rt, (month, 1), self.ledger.cut_off(), ())?;
        let mut rows = before;
        let answer = self.ledger.advance(rule, &mut rows);
        accepted(self.rt, (month, 2), answer, total)?;
        left(self.rt, (month, 2), &rows, &after);
        let mut rows = before;
        let answer = self.ledger.close(rule, &mut rows);
        accepted(self.rt, (month, 3), answer, total)?;
        left(self.rt, (month, 3), &rows, &after);
        Ok(())
    }

    /// Keeps a month in which nobody reports, and reads its lines.
    fn keep_unreported(&mut self, month: Month) -> Result<(), Fail> {
        let number = month.number;
        let after = charged(month.charges);
        self.keep_month(number, &Running, buyers(), month.total, after)?;
        let [first, second] = month.lines;
        self.booked(number, 1, first)?;
        self.booked(number, 2, second)?;
        self.booked(number, 3, Line::default())
    }

    /// The lines of the year add up to its totals.
    fn add_up(&self) -> Result<(), Fail> {
        let all = both(self.all_of(1)?, self.all_of(2)?);
        assert_eq!(self.rt; all, line(9_601_500, 1_638_136));
        assert_eq!(self.rt; self.all_of(3)?, Line::default());
        let booked = self.ledger.lines_or_zeros();
        assert_eq!(self.rt; booked.len(), MONTHS);
        let last = booked.last().map(|lines| lines[1]);
        assert_eq!(self.rt; last, Some(line(100_205, 0)));
        Ok(())
    }

    /// After the last closing only lines are read.
    fn end(&mut self) -> Result<(), Fail> {
        assert_eq!(self.rt; self.ledger.closed_months(), 12);
        let nothing = [Module::default(); MOST_MODULES];
        barred(self.rt, 1, self.ledger.register(b'T', nothing, 1, 0), 6)?;
        let answer = self.ledger.open(LEAP_YEAR, &FIRSTS, &LENGTHS);
        barred(self.rt, 2, answer, 2)?;
        self.booked(1, 1, line(699_919, 15_907))?;
        self.booked(12, 2, line(100_205, 0))
    }

    /// Keeps a month in which nothing is earned, over buyers of no weight.
    fn keep_idle<R: SharingRule>(&mut self, month: u32, rule: &R) -> Result<(), Fail> {
        self.keep_month(month, rule, idle(BEFORE), 0, idle(0))
    }
}

#[test]
fn a_year_with_all_answers(rt: HostRuntime) -> Result<(), Fail> {
    let mut year = Year::new(&rt);
    year.keep_january()?;
    for month in months() {
        year.keep_unreported(month)?;
    }
    year.add_up()?;
    year.end()
}

#[test]
fn a_year_without_awards(rt: HostRuntime) -> Result<(), Fail> {
    let mut year = Year::new(&rt);
    let answer = year.ledger.open(LEAP_YEAR, &FIRSTS, &LENGTHS);
    accepted(&rt, 0, answer, ())?;
    for turn in 1..=6u32 {
        year.keep_idle(2 * turn - 1, &Running)?;
        year.keep_idle(2 * turn, &Remainder)?;
    }
    assert_eq!(rt; year.ledger.closed_months(), 12);
    barred(&rt, 4, year.ledger.cut_off(), 6)?;
    barred(&rt, 5, year.ledger.line(12, 1), 8)
}
