//! Openings: years and runs of stress hours, in form or nearly so.
use crate::call::Call;
use crate::dice::Dice;
use std::alloc::{AllocError, Global};

/// The hours of a common year and of a leap year.
const COMMON: u32 = 8_760;

const LEAP: u32 = 8_784;

/// The hours of a year, and the first hours and the lengths of its runs.
#[derive(Drop)]
struct Drawn {
    year_hours: u32,
    firsts: Vec<u16>,
    lengths: Vec<u16>,
}

impl Drawn {
    /// The opening with it.
    fn opening(self) -> Call {
        Call::Open {
            year_hours: self.year_hours,
            firsts: self.firsts,
            lengths: self.lengths,
        }
    }
}

/// An opening that may be accepted, and mostly is.
pub fn opening(heap: Global, dice: &mut Dice) -> Result<Call, AllocError> {
    Ok(draw(heap, dice)?.opening())
}

/// Draws a year and its runs, whose hours are about what a year may have.
fn draw(heap: Global, dice: &mut Dice) -> Result<Drawn, AllocError> {
    let year_hours = dice.pick(&[COMMON, LEAP]);
    let (least, most) = (year_hours.div_ceil(20), year_hours / 10);
    let stress = dice.about(least, most).min(most.saturating_add(1));
    let count = dice.pick(&[1, 2, 5, 12, 30, 100, 366]).min(stress);
    place(heap, dice, year_hours, stress, count)
}

/// So many runs of so many stress hours together, an hour apart at least, the last ending within the year.
fn place(
    heap: Global,
    dice: &mut Dice,
    year_hours: u32,
    stress: u32,
    count: u32,
) -> Result<Drawn, AllocError> {
    let mut firsts = Vec::new(heap);
    let mut lengths = Vec::new(heap);
    let mut hours = stress;
    let mut idle = year_hours
        .saturating_sub(stress)
        .saturating_sub(count.saturating_sub(1));
    let mut from = 0u32;
    for left in (0..count).rev() {
        let gap = share(dice, idle, left);
        let length = match left {
            0 => hours,
            _ => share(dice, hours.saturating_sub(left), left)
                .saturating_add(1)
                .min(hours),
        };
        from = from.saturating_add(gap);
        firsts.push(narrow(from))?;
        lengths.push(narrow(length))?;
        idle = idle.saturating_sub(gap);
        hours = hours.saturating_sub(length);
        from = from.saturating_add(length).saturating_add(1);
    }
    Ok(Drawn {
        year_hours,
        firsts,
        lengths,
    })
}

/// What one of several takes of what is left, so that about as much is left for each of the others.
fn share(dice: &mut Dice, left: u32, others: u32) -> u32 {
    let fair = left.checked_div(others.saturating_add(1)).unwrap_or(0);
    dice.within(0, fair.saturating_mul(2).min(left))
}

/// The number in 16 bits, the largest of them where it has more.
fn narrow(number: u32) -> u16 {
    u16::try_from(number).unwrap_or(u16::MAX)
}

/// An opening that is spoilt in one place, or in two.
pub fn spoilt_opening(heap: Global, dice: &mut Dice) -> Result<Call, AllocError> {
    let mut drawn = draw(heap, dice)?;
    for _ in 0..dice.within(1, 2) {
        spoil(dice, &mut drawn)?;
    }
    Ok(drawn.opening())
}

/// Spoils a year or its runs in one place.
fn spoil(dice: &mut Dice, drawn: &mut Drawn) -> Result<(), AllocError> {
    match dice.within(1, 10) {
        1 => drawn.year_hours = dice.pick(&[0, 8_759, 8_761, 8_783, 8_785, u32::MAX]),
        2 => drawn.firsts.push(0)?,
        3 => drawn.lengths.push(1)?,
        4 => crowd(drawn)?,
        5 => change(dice, &mut drawn.lengths),
        6 => change(dice, &mut drawn.firsts),
        7 | 8 => draw_near(dice, drawn),
        9 => draw_to_the_end(dice, drawn),
        _ => empty(drawn),
    }
    Ok(())
}

/// Has one run more than a year may have.
fn crowd(drawn: &mut Drawn) -> Result<(), AllocError> {
    empty(drawn);
    for run in 0..367u32 {
        drawn.firsts.push(narrow(run.saturating_mul(20)))?;
        drawn.lengths.push(1)?;
    }
    Ok(())
}

/// Has no run.
fn empty(drawn: &mut Drawn) {
    drawn.firsts.clear();
    drawn.lengths.clear();
}

/// Has a run that overlaps the one before it, touches it, or begins an hour after it.
fn draw_near(dice: &mut Dice, drawn: &mut Drawn) {
    let last = drawn.firsts.len().saturating_sub(1);
    let before = dice.within(0, u32::try_from(last).unwrap_or(0)) as usize;
    let place = before.saturating_add(1);
    if place < drawn.firsts.len() && place < drawn.lengths.len() {
        let end = u32::from(drawn.firsts[before]).saturating_add(u32::from(drawn.lengths[before]));
        drawn.firsts[place] = narrow(end.saturating_add(dice.within(0, 2)).saturating_sub(1));
    }
}

/// Has a last run that ends an hour before the year, with it, or an hour after it.
fn draw_to_the_end(dice: &mut Dice, drawn: &mut Drawn) {
    let last = drawn.firsts.len().saturating_sub(1);
    if last < drawn.firsts.len() && last < drawn.lengths.len() {
        let ends = drawn.year_hours.saturating_add(dice.within(0, 2));
        let first = ends
            .saturating_sub(1)
            .saturating_sub(u32::from(drawn.lengths[last]));
        drawn.firsts[last] = narrow(first);
    }
}

/// Puts another number in the place of one.
fn change(dice: &mut Dice, numbers: &mut Vec<u16>) {
    let last = numbers.len().saturating_sub(1);
    let place = dice.within(0, u32::try_from(last).unwrap_or(0)) as usize;
    let other = dice.pick(&[0, 1, 745, 8_760, 65_535]);
    if place < numbers.len() {
        numbers[place] = narrow(other);
    }
}
