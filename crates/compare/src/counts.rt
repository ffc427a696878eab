//! What was compared so far: calls by their sorts, refusals by their numbers, what the ledgers held, and statements.
use crate::call::{Refusal, SORTS, Sort};

/// The highest number of a refusal.
const MOST: usize = 27;

/// How many calls of a sort were made, and how many of them were accepted.
#[derive(Clone, Copy)]
struct Made {
    calls: u32,
    accepted: u32,
}

/// What was compared so far.
#[derive(Drop)]
pub struct Counts {
    pub years: u32,
    pub rows: u32,
    pub holdings: u32,
    pub lines: u32,
    pub statements: u32,
    calls: [Made; SORTS.len()],
    /// How often each number refused; place 0 is of no number.
    refusals: [u32; MOST + 1],
}

impl Counts {
    /// Nothing yet.
    pub fn new() -> Counts {
        Counts {
            years: 0,
            rows: 0,
            holdings: 0,
            lines: 0,
            statements: 0,
            calls: [Made {
                calls: 0,
                accepted: 0,
            }; SORTS.len()],
            refusals: [0; MOST + 1],
        }
    }

    /// Takes note of a call.
    pub fn call(&mut self, sort: Sort, value: Result<u64, Refusal>) {
        let made = &mut self.calls[sort as usize];
        made.calls = more(made.calls, 1);
        match value {
            Ok(_) => made.accepted = more(made.accepted, 1),
            Err(refusal) => self.refusal(refusal),
        }
    }

    /// Takes note of a refusal.
    pub fn refusal(&mut self, refusal: Refusal) {
        let number = refusal.number as usize;
        if number <= MOST {
            self.refusals[number] = more(self.refusals[number], 1);
        }
    }

    /// Prints what was compared.
    pub fn print(&self, rt: &HostRuntime) -> anyhow::Result<()> {
        println!(rt; "{:>12} {:>10}", "years", self.years)?;
        println!(rt; "{:>12} {:>10}", "rows", self.rows)?;
        println!(rt; "{:>12} {:>10}", "holdings", self.holdings)?;
        println!(rt; "{:>12} {:>10}", "lines", self.lines)?;
        println!(rt; "{:>12} {:>10}", "statements", self.statements)?;
        self.print_calls(rt)?;
        self.print_refusals(rt)
    }

    /// Prints how many calls there were of each sort.
    fn print_calls(&self, rt: &HostRuntime) -> anyhow::Result<()> {
        println!(rt; "{:>12} {:>10} {:>10}", "calls", "made", "accepted")?;
        let mut all: u32 = 0;
        for (name, made) in SORTS.iter().zip(&self.calls) {
            println!(rt; "{name:>12} {:>10} {:>10}", made.calls, made.accepted)?;
            all = all.saturating_add(made.calls);
        }
        println!(rt; "{:>12} {all:>10}", "all")?;
        Ok(())
    }

    /// Prints how often each number refused.
    fn print_refusals(&self, rt: &HostRuntime) -> anyhow::Result<()> {
        println!(rt; "{:>12} {:>10}", "refusals by", "times")?;
        for (number, times) in self.refusals.iter().enumerate().skip(1) {
            println!(rt; "{number:>12} {times:>10}")?;
        }
        Ok(())
    }
}

/// The sum, or the largest number of 32 bits.
pub fn more(count: u32, others: usize) -> u32 {
    count.saturating_add(u32::try_from(others).unwrap_or(u32::MAX))
}
