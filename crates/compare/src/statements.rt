//! Statements of months and of any lines, written and read by both.
use crate::call::Refusal;
use crate::comparison::Comparison;
use crate::counts::more;
use crate::dice::Dice;
use crate::second::{read_statement, write_statement};
use ledger::Line;
use statement::{MOST_BYTES, StatementFault, read, write};
use std::alloc::{AllocError, Global};

/// How many statements of any lines are compared after a year.
const STATEMENTS: u32 = 24;

/// What stands in a buffer before a call: a byte, and a line.
const OLD_BYTE: u8 = 0xEE;

const OLD_LINE: Line = Line {
    right: 7,
    penalty: 9,
};

/// A right and a penalty.
type Pair = (u64, u64);

/// What reading answers: the month and its lines.
type Found = Result<(u32, Vec<Pair>), Refusal>;

impl Comparison<'_> {
    /// Compares the statement of a closed month.
    pub fn compare_statement_of(&mut self, month: u32) -> anyhow::Result<()> {
        let mut lines = Vec::new(self.heap);
        for facility in 1..=self.ledger.facilities() {
            let line = self.ledger.line(month, facility)?;
            lines.push((line.right, line.penalty))?;
        }
        self.compare_both_ways(month, &lines, MOST_BYTES, lines.len())
    }

    /// Compares statements of any lines, and readings of bytes that are nearly such.
    pub fn compare_statements(&mut self) -> anyhow::Result<()> {
        for _ in 0..STATEMENTS {
            let month = self.dice.about(1, 12);
            let lines = any_lines(self.heap, &mut self.dice)?;
            let length = lines.len().saturating_mul(16).saturating_add(2);
            let bytes = about(&mut self.dice, length);
            let room = about(&mut self.dice, lines.len());
            self.compare_both_ways(month, &lines, bytes, room)?;
        }
        Ok(())
    }

    /// Compares the writing of lines, and the reading of what is written, as it is and spoilt.
    fn compare_both_ways(
        &mut self,
        month: u32,
        lines: &[Pair],
        bytes: usize,
        room: usize,
    ) -> anyhow::Result<()> {
        let first = write_first(self.heap, month, lines, bytes)?;
        let second = write_statement(self.heap, month, lines, bytes)?;
        self.compare("writing a statement", &first, &second)?;
        self.note(first.as_ref().err().copied());
        let Ok(mut written) = first else {
            return Ok(());
        };
        self.compare_reading(&written, room)?;
        spoil(&mut self.dice, &mut written)?;
        self.compare_reading(&written, room)
    }

    /// Compares the reading of bytes.
    fn compare_reading(&mut self, bytes: &[u8], room: usize) -> anyhow::Result<()> {
        let first = read_first(self.heap, bytes, room)?;
        let second = read_statement(self.heap, bytes, room)?;
        self.compare("reading a statement", &first, &second)?;
        self.note(first.err());
        Ok(())
    }

    /// Takes note of a statement, and of its refusal if it has one.
    fn note(&mut self, refusal: Option<Refusal>) {
        self.counts.statements = more(self.counts.statements, 1);
        if let Some(refusal) = refusal {
            self.counts.refusal(refusal);
        }
    }
}

/// What the library writes into a buffer of so many bytes. Bytes that it should not have touched are told as written.
fn write_first(
    heap: Global,
    month: u32,
    lines: &[Pair],
    room: usize,
) -> Result<Result<Vec<u8>, Refusal>, AllocError> {
    let lines: Vec<Line> = lines
        .iter()
        .map(|&(right, penalty)| Line { right, penalty })
        .collect(heap)?;
    let mut out = vec![in heap; OLD_BYTE; room]?;
    let answer = write(month, &lines, &mut out);
    let length = *answer.as_ref().unwrap_or(&0);
    if out.iter().skip(length).any(|&byte| byte != OLD_BYTE) {
        return Ok(Ok(out));
    }
    out.truncate(length);
    Ok(answer.map(|_| out).map_err(refusal))
}

/// What the library reads into so many lines. Lines that it should not have touched are told as read.
fn read_first(heap: Global, bytes: &[u8], room: usize) -> Result<Found, AllocError> {
    let mut lines = vec![in heap; OLD_LINE; room]?;
    let answer = read(bytes, &mut lines);
    let (month, count) = *answer.as_ref().unwrap_or(&(0, 0));
    if lines.iter().skip(count).all(|&line| line == OLD_LINE) {
        lines.truncate(count);
    }
    let pairs: Vec<Pair> = lines
        .iter()
        .map(|line| (line.right, line.penalty))
        .collect(heap)?;
    match answer {
        Err(fault) if pairs.is_empty() => Ok(Err(refusal(fault))),
        _ => Ok(Ok((month, pairs))),
    }
}

/// What a fault of the library says.
fn refusal(fault: StatementFault) -> Refusal {
    Refusal {
        number: fault.number(),
        layer: fault.layer(),
        place: fault.place(),
    }
}

/// Any lines, mostly within the limits of a statement.
fn any_lines(heap: Global, dice: &mut Dice) -> Result<Vec<Pair>, AllocError> {
    let count = match dice.one_in(6) {
        true => dice.pick(&[0, 63, 64, 65]),
        false => dice.within(0, 12),
    };
    let mut lines = Vec::new(heap);
    for _ in 0..count {
        let mut right = dice.within(0, 1_000_000_000);
        let mut penalty = dice.within(0, right);
        if dice.one_in(32) {
            right = dice.pick(&[0, 1_000_000_000, 1_000_000_001, u32::MAX]);
            penalty = dice.pick(&[0, right, right.saturating_add(1)]);
        }
        lines.push((u64::from(right), u64::from(penalty)))?;
    }
    Ok(lines)
}

/// A size, or now and then one beside it.
fn about(dice: &mut Dice, size: usize) -> usize {
    match dice.within(1, 8) {
        1 => size.saturating_sub(1),
        2 => size.saturating_add(1),
        3 => size.saturating_add(20),
        _ => size,
    }
}

/// Spoils bytes in one place, or makes them one more or one less.
fn spoil(dice: &mut Dice, bytes: &mut Vec<u8>) -> Result<(), AllocError> {
    let last = u32::try_from(bytes.len()).unwrap_or(0).saturating_sub(1);
    let place = match dice.one_in(3) {
        true => dice.pick(&[0, 1]),
        false => dice.within(0, last),
    };
    match dice.within(1, 6) {
        1 => bytes.push(0)?,
        2 => bytes.truncate(last as usize),
        _ => {
            let byte = dice.pick(&[0, 1, 12, 13, 64, 65, 255]);
            if let Some(old) = bytes.get_mut(place as usize) {
                *old = u8::try_from(byte).unwrap_or(0);
            }
        }
    }
    Ok(())
}
