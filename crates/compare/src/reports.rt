//! Reports: hour records about the commitment, and tests about their limits.
use crate::call::{Kind, Report, Test};
use crate::dice::Dice;
use crate::notes::{Notes, held_in_all, month_of};
use ledger::Ledger;
use std::alloc::{AllocError, Global};

/// A report of a facility, mostly of its own kind and with a record for each stress hour.
pub fn report(
    heap: Global,
    dice: &mut Dice,
    notes: &Notes,
    ledger: &Ledger,
    facility: u32,
) -> Result<Report, AllocError> {
    let month = month_of(ledger);
    let kind = kind_of(dice, notes, facility);
    let mut count = notes.calendar.stress_hours_in(month);
    if dice.one_in(20) {
        count = dice.pick(&[count.saturating_sub(1), count.saturating_add(1)]);
    }
    let commitment = held_in_all(ledger, facility);
    let mut hours = Vec::new(heap);
    for _ in 0..count {
        hours.push((figure(dice, commitment), figure(dice, commitment)))?;
    }
    let test = match dice.one_in(2) {
        true => Some(test(heap, dice, notes, month, kind)?),
        false => None,
    };
    Ok(Report { kind, hours, test })
}

/// The kind of a facility, and now and then another.
fn kind_of(dice: &mut Dice, notes: &Notes, facility: u32) -> Kind {
    let letter = notes.facility(facility).map_or(0, |found| found.letter);
    match letter {
        _ if dice.one_in(20) => any_kind(dice),
        b'T' => Kind::Thermal,
        b'S' => Kind::Storage,
        b'D' => Kind::Demand,
        _ => any_kind(dice),
    }
}

/// Any kind.
fn any_kind(dice: &mut Dice) -> Kind {
    match dice.within(1, 3) {
        1 => Kind::Thermal,
        2 => Kind::Storage,
        _ => Kind::Demand,
    }
}

/// A figure of an hour record, mostly about the commitment.
fn figure(dice: &mut Dice, commitment: u32) -> u32 {
    let double = commitment.saturating_mul(2);
    match dice.within(1, 12) {
        1 => 0,
        2 => u32::MAX,
        3 => commitment.saturating_sub(1),
        4 => commitment.saturating_add(1),
        5..=7 => commitment,
        _ => dice.within(0, double),
    }
}

/// A test, mostly as long as its kind wants it and within the month.
fn test(
    heap: Global,
    dice: &mut Dice,
    notes: &Notes,
    month: u32,
    kind: Kind,
) -> Result<Test, AllocError> {
    let (shortest, longest) = lengths_of(kind);
    let mut length = dice.within(shortest, longest);
    if dice.one_in(12) {
        length = dice.pick(&[0, shortest.saturating_sub(1), longest.saturating_add(1)]);
    }
    let begins = notes.calendar.month_begins(month);
    let latest = notes.calendar.month_ends(month).saturating_sub(length);
    let first = match dice.within(1, 16) {
        1 => begins.saturating_sub(1),
        2 => begins,
        3 => latest,
        4 => latest.saturating_add(1),
        5 => u32::MAX,
        _ => dice.within(begins, latest),
    };
    let mut pairs = Vec::new(heap);
    for _ in 0..length {
        pairs.push(energy(dice))?;
    }
    Ok(Test { first, pairs })
}

/// The shortest and the longest test of a kind.
fn lengths_of(kind: Kind) -> (u32, u32) {
    match kind {
        Kind::Thermal => (3, 24),
        Kind::Storage => (1, 1),
        Kind::Demand => (1, 3),
    }
}

/// The ordered and the delivered energy of a test hour, mostly about 95 per cent of the ordered.
fn energy(dice: &mut Dice) -> (u32, u32) {
    let mut ordered = dice.within(1, 1_000_000);
    if dice.one_in(40) {
        ordered = dice.pick(&[0, 1, 1_000_000, 1_000_001, u32::MAX]);
    }
    let limit = u64::from(ordered).saturating_mul(95) / 100;
    let limit = u32::try_from(limit).unwrap_or(u32::MAX);
    let delivered = match dice.within(1, 6) {
        1 => 0,
        2 => limit,
        3 => limit.saturating_add(1),
        4 => u32::MAX,
        _ => ordered,
    };
    (ordered, delivered)
}
