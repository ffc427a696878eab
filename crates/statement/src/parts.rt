//! A statement's bytes taken apart.
ghost use Rattle.std.specs.Prelude.{◌≡◌, ◌≤◌, ◌<◌, true, false, length, MatchOption};
ghost use Rattle.std.specs.List.{All};
ghost use Rattle.statement.specs.Limits.{within};
ghost use Rattle.statement.specs.Encoding.{encoding};
ghost use Rattle.statement.specs.Reading.{in_form, filled};
ghost use Rattle.statement.specs.Parts.{Fits, line_of, lines_of};

use crate::form::{AMOUNT, is_bounded, is_counted};
use ledger::Line;

/// A statement's month, and the bytes of its rights and of its penalties.
#[derive(Clone, Copy)]
pub(crate) struct Parts<'a> {
    month: u8,
    rights: &'a [[u8; AMOUNT]],
    penalties: &'a [[u8; AMOUNT]],
    ghost even: { length rights.now ≡ length penalties.now },
}

impl<'a> Parts<'a> {
    /// Takes bytes apart that are as many as their count asks for.
    pub fn of(bytes: &'a [u8]) -> Option<Self>
        ensures { MatchOption result (in_form bytes.now ≡ false) (λ p.
            (in_form bytes.now ≡ true)
            × (bytes.now ≡ encoding p.month (lines_of p.rights.now p.penalties.now))
            × All Fits (lines_of p.rights.now p.penalties.now)) }
    {
        let [month, count, amounts @ ..] = bytes else {
            return None;
        };
        let count = usize::from(*count);
        if amounts.len() != 2 * AMOUNT * count {
            return None;
        }
        let (amounts, _) = amounts.as_chunks();
        let (rights, penalties) = amounts.split_at(count);
        Some(Parts {
            month: *month,
            rights,
            penalties,
        })
    }

    /// The month.
    pub fn month(&self) -> u32
        ensures { result ≡ self.now.month }
    {
        self.month.into()
    }

    /// How many lines there are.
    pub fn count(&self) -> usize
        ensures { result ≡ length (lines_of self.now.rights.now self.now.penalties.now) }
    {
        self.rights.len()
    }

    /// Whether a statement may say the lines of the month.
    pub fn is_within(&self) -> bool
        ensures { result ≡ within self.now.month (lines_of self.now.rights.now self.now.penalties.now) }
    {
        is_counted(self.month(), self.count())
            && self
                .rights
                .iter()
                .zip(self.penalties)
                .all(|(right, penalty)| is_bounded(&line_of(right, penalty)))
    }

    /// Puts the lines over the first of those given.
    pub fn fill(&self, lines: &mut [Line])
        requires { length (lines_of self.now.rights.now self.now.penalties.now) ≤ length lines.old }
        ensures { lines.new ≡ filled (lines_of self.now.rights.now self.now.penalties.now) lines.old }
    {
        for (place, right) in self.rights.iter().enumerate() {
            lines[place] = line_of(right, &self.penalties[place]);
        }
    }
}

/// The line of these bytes.
fn line_of(right: &[u8; AMOUNT], penalty: &[u8; AMOUNT]) -> Line
    ensures { result ≡ line_of right.now penalty.now }
{
    Line {
        right: u64::from_le_bytes(*right),
        penalty: u64::from_le_bytes(*penalty),
    }
}
