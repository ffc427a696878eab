//! Advances and closings: rules, and rows about their limits.
use crate::call::Rule;
use crate::dice::Dice;
use std::alloc::{AllocError, Global};

/// The most rows, and the most MWh that they have together.
const MOST_ROWS: u32 = 1_024;

const MOST_MWH: u32 = 40_000_000;

/// A built-in rule.
pub fn rule(dice: &mut Dice) -> Rule {
    match dice.one_in(2) {
        true => Rule::Running,
        false => Rule::Remainder,
    }
}

/// What each buyer's row consumes, mostly within the limits.
pub fn consumption(heap: Global, dice: &mut Dice) -> Result<Vec<u32>, AllocError> {
    match dice.within(1, 24) {
        1 => Ok(Vec::new(heap)),
        2 => each(heap, dice, 3, 0),
        3 => full(heap, dice, MOST_MWH),
        4 => full(heap, dice, MOST_MWH.saturating_add(1)),
        5 => each(heap, dice, MOST_ROWS, 39_062),
        6 => each(heap, dice, MOST_ROWS.saturating_add(1), 1),
        7 => each(heap, dice, 2, u32::MAX),
        8 => each(heap, dice, 1, MOST_MWH),
        9..=14 => each(heap, dice, 7, 3),
        _ => {
            let rows = dice.within(1, 40);
            each(heap, dice, rows, 50_000)
        }
    }
}

/// So many rows of up to so many MWh each.
fn each(heap: Global, dice: &mut Dice, rows: u32, most: u32) -> Result<Vec<u32>, AllocError> {
    let mut mwhs = Vec::new(heap);
    for _ in 0..rows {
        mwhs.push(dice.within(0, most))?;
    }
    Ok(mwhs)
}

/// A few rows of so many MWh together.
fn full(heap: Global, dice: &mut Dice, whole: u32) -> Result<Vec<u32>, AllocError> {
    let mut mwhs = Vec::new(heap);
    let mut left = whole;
    for _ in 0..dice.within(1, 8) {
        let mwh = dice.within(0, left);
        mwhs.push(mwh)?;
        left = left.saturating_sub(mwh);
    }
    mwhs.push(left)?;
    Ok(mwhs)
}
