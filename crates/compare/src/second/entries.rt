//! The journal: every call that was made, in its order, with what it answered.

use super::hours::Calendar;
use crate::call::{Call, Refusal, Sort};

/// A call and its answer: its value or its refusal, and what each buyer's row was charged.
#[derive(Drop)]
pub struct Entry {
    pub call: Call,
    pub value: Result<u64, Refusal>,
    pub charges: Vec<u64>,
}

impl Entry {
    /// The call, where it was accepted.
    pub fn accepted(&self) -> Option<&Call> {
        match self.value {
            Ok(_) => Some(&self.call),
            Err(_) => None,
        }
    }

    /// Whether this is an accepted call of the sort.
    pub fn is_accepted(&self, sort: Sort) -> bool {
        self.value.is_ok() && Sort::of(&self.call) == sort
    }
}

/// How many calls of the sort were accepted.
pub fn count(entries: &[Entry], sort: Sort) -> u32 {
    let found = entries
        .iter()
        .filter(|entry| entry.is_accepted(sort))
        .count();
    u32::try_from(found).unwrap_or(u32::MAX)
}

/// Where the accepted call of the sort with a number, counted from 1, stands.
pub fn position(entries: &[Entry], sort: Sort, number: u32) -> Option<usize> {
    let mut met = 0u32;
    for (index, entry) in entries.iter().enumerate() {
        if entry.is_accepted(sort) {
            met = met.saturating_add(1);
            if met == number {
                return Some(index);
            }
        }
    }
    None
}

/// The entries since the last month was closed.
pub fn this_month(entries: &[Entry]) -> &[Entry] {
    let closed = count(entries, Sort::Closing);
    match position(entries, Sort::Closing, closed) {
        Some(closing) => entries.get(closing..).unwrap_or(entries),
        None => entries,
    }
}

/// The calendar that was opened with.
pub fn calendar(entries: &[Entry]) -> Option<Calendar<'_>> {
    let index = position(entries, Sort::Opening, 1)?;
    match entries.get(index)?.accepted()? {
        Call::Open {
            year_hours,
            firsts,
            lengths,
        } => Some(Calendar {
            year_hours: *year_hours,
            firsts: firsts.as_slice(),
            lengths: lengths.as_slice(),
        }),
        _ => None,
    }
}
