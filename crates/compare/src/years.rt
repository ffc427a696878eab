//! Years of calls: what is called next, by where the year stands.
use crate::calendars::{opening, spoilt_opening};
use crate::call::Call;
use crate::charging::{consumption, rule};
use crate::comparison::Comparison;
use crate::reports::report;
use crate::trading::{registering, trade};
use ledger::{Phase, Stage};
use std::alloc::AllocError;

/// The most calls of a year.
const MOST_CALLS: u32 = 5_000;

/// How many facilities a crowded year has: one more than may be registered.
const CROWD: u32 = 65;

/// How a year goes.
#[derive(Clone, Copy)]
struct Course {
    /// How many facilities are wanted.
    facilities: u32,
    /// About how many calls of trading the first month has, and each later one.
    first_trades: u32,
    trades: u32,
}

impl Comparison<'_> {
    /// Plays a year to its end, and compares all that both implementations answer.
    pub fn play_year(&mut self, seed: u32) -> anyhow::Result<()> {
        self.begin(seed);
        let course = match seed % 8 {
            0 => Course {
                facilities: CROWD,
                first_trades: 240,
                trades: 30,
            },
            _ => Course {
                facilities: self.dice.within(2, 9),
                first_trades: 40,
                trades: 8,
            },
        };
        for _ in 0..MOST_CALLS {
            let call = self.next_call(course)?;
            self.make(call)?;
            if self.ledger.stage() == Stage::Finished {
                break;
            }
        }
        for _ in 0..12 {
            let call = self.any_call()?;
            self.make(call)?;
        }
        self.compare_year()
    }

    /// The next call: mostly one that the stage of the year admits.
    fn next_call(&mut self, course: Course) -> Result<Call, AllocError> {
        if self.dice.one_in(24) {
            return self.any_call();
        }
        match self.ledger.stage() {
            Stage::Unopened if self.dice.one_in(3) => opening(self.heap, &mut self.dice),
            Stage::Unopened => spoilt_opening(self.heap, &mut self.dice),
            Stage::Month(_, Phase::Trading) => self.trading(course),
            Stage::Month(_, Phase::Metering) => self.metering(),
            Stage::Month(_, Phase::Claims) => self.claims(),
            Stage::Finished => self.any_call(),
        }
    }

    /// A call of trading, or the cut-off.
    fn trading(&mut self, course: Course) -> Result<Call, AllocError> {
        if self.ledger.facilities() < course.facilities && self.dice.one_in(2) {
            return Ok(registering(&mut self.dice));
        }
        let trades = match self.ledger.closed_months() {
            0 => course.first_trades,
            _ => course.trades,
        };
        if self.dice.one_in(trades) {
            return Ok(Call::CutOff);
        }
        Ok(trade(&mut self.dice, &self.notes, &self.ledger))
    }

    /// A report, or the advance.
    fn metering(&mut self) -> Result<Call, AllocError> {
        if self.dice.one_in(6) {
            return Ok(Call::Advance {
                rule: rule(&mut self.dice),
                mwhs: consumption(self.heap, &mut self.dice)?,
            });
        }
        let facility = self.dice.number(self.ledger.facilities());
        let report = report(
            self.heap,
            &mut self.dice,
            &self.notes,
            &self.ledger,
            facility,
        )?;
        Ok(Call::Report { facility, report })
    }

    /// Any call, whether the stage of the year admits it or not.
    fn any_call(&mut self) -> Result<Call, AllocError> {
        match self.dice.within(1, 9) {
            1 => opening(self.heap, &mut self.dice),
            2 => Ok(registering(&mut self.dice)),
            3 | 4 => Ok(trade(&mut self.dice, &self.notes, &self.ledger)),
            5 => Ok(Call::CutOff),
            6 | 7 => self.metering(),
            _ => self.claims(),
        }
    }

    /// A claim, its answer, or the closing.
    fn claims(&mut self) -> Result<Call, AllocError> {
        let facility = self.claimant();
        match self.dice.within(1, 10) {
            1..=3 => Ok(Call::Claim {
                facility: self.dice.number(self.ledger.facilities()),
            }),
            4 | 5 => Ok(Call::Dismiss { facility }),
            6 | 7 => {
                let report = report(
                    self.heap,
                    &mut self.dice,
                    &self.notes,
                    &self.ledger,
                    facility,
                )?;
                Ok(Call::Uphold { facility, report })
            }
            _ => Ok(Call::Close {
                rule: rule(&mut self.dice),
                mwhs: consumption(self.heap, &mut self.dice)?,
            }),
        }
    }

    /// A facility, mostly one whose claim is open.
    fn claimant(&mut self) -> u32 {
        let claimed = self.dice.pick(&self.notes.claimed);
        match self.dice.one_in(6) || claimed == 0 {
            true => self.dice.number(self.ledger.facilities()),
            false => claimed,
        }
    }
}
