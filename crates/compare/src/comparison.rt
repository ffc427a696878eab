//! The two implementations side by side: each call is made of both, and what they answer and hold is compared.
use crate::call::{Answer, Call, Sort};
use crate::counts::{Counts, more};
use crate::dice::Dice;
use crate::first;
use crate::notes::Notes;
use crate::second::Second;
use anyhow::anyhow;
use ledger::Ledger;
use std::alloc::Global;
use std::fmt::Debug;

/// Two ledgers of one year, one of each implementation.
#[derive(Drop)]
pub struct Comparison<'a> {
    pub rt: &'a HostRuntime,
    pub heap: Global,
    pub dice: Dice,
    pub ledger: Ledger,
    pub second: Second,
    pub notes: Notes,
    pub counts: Counts,
    /// The year, told by its seed, and how many calls it had so far.
    seed: u32,
    calls: u32,
}

impl<'a> Comparison<'a> {
    /// Nothing compared yet.
    pub fn new(rt: &'a HostRuntime) -> Self {
        let heap = rt.alloc();
        Comparison {
            rt,
            heap,
            dice: Dice::new(0),
            ledger: Ledger::new(),
            second: Second::new(heap),
            notes: Notes::new(heap),
            counts: Counts::new(),
            seed: 0,
            calls: 0,
        }
    }

    /// Begins a year that no call was made in.
    pub fn begin(&mut self, seed: u32) {
        self.dice = Dice::new(u64::from(seed));
        self.ledger = Ledger::new();
        self.second = Second::new(self.heap);
        self.notes = Notes::new(self.heap);
        self.seed = seed;
        self.calls = 0;
        self.counts.years = more(self.counts.years, 1);
    }

    /// Makes a call of both, compares what they answer and what they then hold, and gives the answer.
    pub fn make(&mut self, call: Call) -> anyhow::Result<Answer> {
        self.calls = more(self.calls, 1);
        let sort = Sort::of(&call);
        let first = first::play(self.heap, &mut self.ledger, &call)?;
        if first.value.is_ok() {
            self.notes.note(&call)?;
        }
        let second = self.second.play(call)?;
        self.compare_answers(sort, &first, &second)?;
        self.counts.call(sort, first.value);
        self.counts.rows = more(self.counts.rows, first.charges.len());
        self.compare_counts()?;
        if first.value.is_ok() {
            self.compare_after(sort)?;
        }
        Ok(first)
    }

    /// Compares what both answer, and what each row is charged.
    fn compare_answers(&self, sort: Sort, first: &Answer, second: &Answer) -> anyhow::Result<()> {
        self.compare(sort.name(), &first.value, &second.value)?;
        self.compare(
            "how many rows are charged",
            &first.charges.len(),
            &second.charges.len(),
        )?;
        for (first, second) in first.charges.iter().zip(&second.charges) {
            self.compare("a charge", first, second)?;
        }
        Ok(())
    }

    /// Compares what an accepted call may have changed.
    fn compare_after(&mut self, sort: Sort) -> anyhow::Result<()> {
        let month = self.ledger.closed_months();
        match sort {
            Sort::CuttingOff => self.compare_holdings(),
            Sort::Closing => self.compare_month(month),
            _ => Ok(()),
        }
    }

    /// Compares one thing that both give.
    pub fn compare<T: PartialEq + Debug>(
        &self,
        what: &str,
        first: &T,
        second: &T,
    ) -> anyhow::Result<()> {
        if first == second {
            return Ok(());
        }
        println!(self.rt;
            "year {}, call {}, {what}: {first:?}, but {second:?}",
            self.seed, self.calls
        )?;
        Err(anyhow!("the two implementations differ"))
    }
}
