//! Sharing a month's total among the buyers' rows, by either built-in rule.

use super::refusals::{Reason, Setback};
use crate::call::{Refusal, Rule};
use std::alloc::{AllocError, Global};

/// The most rows in one call.
const MOST_ROWS: usize = 1_024;

/// The most MWh of all rows in one call.
const MOST_MWH: u64 = 40_000_000;

/// What one row is to pay, and what the division left over at it.
#[derive(Clone, Copy)]
struct Claim {
    row: usize,
    charge: u64,
    remainder: u64,
}

/// Judges the number of rows and the sum of their energies.
pub fn check_rows(mwhs: &[u32]) -> Result<(), Refusal> {
    if mwhs.len() > MOST_ROWS || whole_energy(mwhs) > MOST_MWH {
        return Err(Reason::Rows.refusal());
    }
    Ok(())
}

/// What each row is charged of a total.
pub fn charges(heap: Global, rule: Rule, total: u64, mwhs: &[u32]) -> Result<Vec<u64>, Setback> {
    let whole = whole_energy(mwhs);
    if whole == 0 && total > 0 {
        return Err(Setback::from(Reason::NoWeight));
    }
    let charges = match rule {
        Rule::Running => running(heap, total, whole, mwhs)?,
        Rule::Remainder => remainder(heap, total, whole, mwhs)?,
    };
    Ok(charges)
}

/// The MWh of all rows.
fn whole_energy(mwhs: &[u32]) -> u64 {
    mwhs.iter()
        .fold(0u64, |sum, mwh| sum.saturating_add(u64::from(*mwh)))
}

/// Each row pays what the whole cents up to it are more than those before it.
fn running(heap: Global, total: u64, whole: u64, mwhs: &[u32]) -> Result<Vec<u64>, AllocError> {
    let mut charges = Vec::new(heap);
    let mut energy = 0u64;
    let mut charged = 0u64;
    for mwh in mwhs {
        energy = energy.saturating_add(u64::from(*mwh));
        let due = total.saturating_mul(energy).checked_div(whole).unwrap_or(0);
        charges.push(due.saturating_sub(charged))?;
        charged = due;
    }
    Ok(charges)
}

/// Each row pays its whole cents, and the rows with the largest remainders, the earlier first, one of those left over.
fn remainder(heap: Global, total: u64, whole: u64, mwhs: &[u32]) -> Result<Vec<u64>, AllocError> {
    let mut claims: Vec<Claim> = mwhs
        .iter()
        .enumerate()
        .map(|(row, mwh)| claim_of(row, total.saturating_mul(u64::from(*mwh)), whole))
        .collect(heap)?;
    let charged = claims
        .iter()
        .fold(0u64, |sum, claim| sum.saturating_add(claim.charge));
    let left_over = usize::try_from(total.saturating_sub(charged)).unwrap_or(usize::MAX);
    claims.sort_by_key(|claim| (u64::MAX.saturating_sub(claim.remainder), claim.row))?;
    for claim in claims.iter_mut().take(left_over) {
        claim.charge = claim.charge.saturating_add(1);
    }
    claims.sort_by_key(|claim| claim.row)?;
    claims.iter().map(|claim| claim.charge).collect(heap)
}

/// A row's whole cents, and what is left over by the division.
fn claim_of(row: usize, due: u64, whole: u64) -> Claim {
    Claim {
        row,
        charge: due.checked_div(whole).unwrap_or(0),
        remainder: due.checked_rem(whole).unwrap_or(0),
    }
}
