//! Statements: a month's lines as bytes, first all rights and then all penalties.

use super::refusals::{Reason, Setback, settle};
use crate::call::Refusal;
use std::alloc::{AllocError, Global};

/// The most lines of a statement.
const MOST_LINES: usize = 64;

/// The highest right in a statement, in cents.
const HIGHEST_RIGHT: u64 = 1_000_000_000;

/// Writes a statement into a buffer with room for so many bytes, and gives the bytes written.
pub fn write_statement(
    heap: Global,
    month: u32,
    lines: &[(u64, u64)],
    room: usize,
) -> Result<Result<Vec<u8>, Refusal>, AllocError> {
    settle(write(heap, month, lines, room))
}

/// Reads a statement into a buffer with room for so many lines, and gives its month and its lines.
pub fn read_statement(
    heap: Global,
    bytes: &[u8],
    room: usize,
) -> Result<Result<(u32, Vec<(u64, u64)>), Refusal>, AllocError> {
    settle(read(heap, bytes, room))
}

/// Writes a statement.
fn write(heap: Global, month: u32, lines: &[(u64, u64)], room: usize) -> Result<Vec<u8>, Setback> {
    if !is_within_limits(month, lines) {
        return Err(Setback::from(Reason::StatementLimits));
    }
    let (Ok(month_byte), Ok(count_byte)) = (u8::try_from(month), u8::try_from(lines.len())) else {
        return Err(Setback::from(Reason::StatementLimits));
    };
    if room < lines.len().saturating_mul(16).saturating_add(2) {
        return Err(Setback::from(Reason::SmallBuffer));
    }
    let mut bytes = Vec::from_slice(heap, &[month_byte, count_byte])?;
    let rights = lines.iter().map(|(right, _)| *right);
    let penalties = lines.iter().map(|(_, penalty)| *penalty);
    for cents in rights.chain(penalties) {
        bytes.extend_from_slice(&cents.to_le_bytes())?;
    }
    Ok(bytes)
}

/// Reads a statement.
fn read(heap: Global, bytes: &[u8], room: usize) -> Result<(u32, Vec<(u64, u64)>), Setback> {
    let [month, count, figures @ ..] = bytes else {
        return Err(Setback::from(Reason::StatementLength));
    };
    let month = u32::from(*month);
    let count = usize::from(*count);
    if figures.len() != count.saturating_mul(16) {
        return Err(Setback::from(Reason::StatementLength));
    }
    let numbers: Vec<u64> = figures
        .chunks_exact(8)
        .map(|eight| number(eight))
        .collect(heap)?;
    let lines: Vec<(u64, u64)> = numbers
        .iter()
        .copied()
        .zip(numbers.iter().copied().skip(count))
        .collect(heap)?;
    if !is_within_limits(month, lines.as_slice()) {
        return Err(Setback::from(Reason::StatementLimits));
    }
    if room < count {
        return Err(Setback::from(Reason::SmallBuffer));
    }
    Ok((month, lines))
}

/// The number that eight bytes stand for, the least significant first.
fn number(eight: &[u8]) -> u64 {
    eight.iter().rev().fold(0u64, |number, byte| {
        number.saturating_mul(256).saturating_add(u64::from(*byte))
    })
}

/// Whether the month, the number of lines and each line are within their limits.
fn is_within_limits(month: u32, lines: &[(u64, u64)]) -> bool {
    (1..=12).contains(&month)
        && lines.len() <= MOST_LINES
        && lines.iter().all(|(right, penalty)| *right <= HIGHEST_RIGHT && *penalty <= *right)
}
