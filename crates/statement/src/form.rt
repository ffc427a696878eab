//! The form of a statement: how many bytes it has, and its limits.
ghost use Rattle.std.specs.Prelude.{◌≡◌, ◌≤◌, length};
ghost use Rattle.statement.specs.Limits.{bounded, counted, within};
ghost use Rattle.statement.specs.Encoding.{length_of};

use ledger::{Line, MONTHS, MOST_FACILITIES};

/// The largest right, in cents.
const MOST_RIGHT: u64 = 1_000_000_000;

/// How many bytes an amount has.
pub(crate) const AMOUNT: usize = 8;

/// How many bytes the longest statement has.
pub const MOST_BYTES: usize = 2 + 2 * AMOUNT * MOST_FACILITIES;

/// How many bytes the statement of so many lines has.
pub(crate) fn length_of(lines: usize) -> usize
    requires { lines ≤ 64 }
    ensures { result ≡ length_of lines }
{
    2 + 2 * AMOUNT * lines
}

/// Whether a statement may say these lines of this month.
pub(crate) fn is_within(month: u32, lines: &[Line]) -> bool
    ensures { result ≡ within month lines.now }
{
    is_counted(month, lines.len()) && lines.iter().all(is_bounded)
}

/// Whether a statement may be of this month, and have so many lines.
pub(crate) fn is_counted(month: u32, lines: usize) -> bool
    ensures { result ≡ counted month lines }
{
    (1..=MONTHS as u32).contains(&month) && lines <= MOST_FACILITIES
}

/// Whether a statement may have this line.
pub(crate) fn is_bounded(line: &Line) -> bool
    ensures { result ≡ bounded line.now }
{
    line.right <= MOST_RIGHT && line.penalty <= line.right
}
