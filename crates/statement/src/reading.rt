//! Reading bytes as a month's lines.
ghost use Rattle.std.specs.Prelude.{◌≡◌, ◌≤◌, ℕ, List, length, MatchResult};
ghost use Rattle.ledger.specs.declared.state.Line.{Line};
ghost use Rattle.statement.specs.Reading.{States, Reads, Refused, Answers};
ghost use Rattle.statement.specs.Parts.{lines_of};

use crate::StatementFault;
use crate::parts::Parts;
use ledger::Line;

/// Reads the bytes of a statement, puts its lines over the first of those given, and answers its month and how many
/// lines it has.
pub fn read(bytes: &[u8], lines: &mut [Line]) -> Result<(u32, usize), StatementFault>
    ensures answer { Answers bytes.now lines.old result lines.new }
    ensures exact { (m : ℕ) (ls : List Line) → States bytes.now m ls → Reads m ls lines.old result lines.new }
{
    let parts = statement_in(bytes, lines.len())?;
    parts.fill(lines);
    Ok((parts.month(), parts.count()))
}

/// The statement that the bytes are, taken apart, where there is room for so many lines.
fn statement_in(bytes: &[u8], room: usize) -> Result<Parts<'_>, StatementFault>
    ensures { MatchResult result
        (λ p. States bytes.now p.month (lines_of p.rights.now p.penalties.now)
        × (length (lines_of p.rights.now p.penalties.now) ≤ room))
        (Refused bytes.now room) }
{
    let parts = Parts::of(bytes).ok_or(StatementFault::Length)?;
    if !parts.is_within() {
        return Err(StatementFault::Limits);
    }
    if room < parts.count() {
        return Err(StatementFault::Buffer);
    }
    Ok(parts)
}
