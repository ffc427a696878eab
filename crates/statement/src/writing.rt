//! Writing a month's lines as bytes.
ghost use Rattle.std.specs.Prelude.{◌≡◌, ◌≢◌, ◌+◌, ◌*◌, ◌≤◌, ℕ, true, List, length, take, OnOk, Err};
ghost use Rattle.std.specs.List.{All, flat_map, splice};
ghost use Rattle.std.specs.Int.{w64, to_le_bytes};
ghost use Rattle.ledger.specs.declared.state.Line.{Line};
ghost use Rattle.ledger.specs.Form.{Bounded, Dated};
ghost use Rattle.ledger.specs.Judged.{judged, kept_or};
ghost use Rattle.statement.specs.declared.fault.StatementFault.TheVariants.{Limits, Buffer};
ghost use Rattle.statement.specs.Limits.{within};
ghost use Rattle.statement.specs.Encoding.{encoding, length_of, Distinct, right_bytes, penalty_bytes};
ghost use Rattle.statement.specs.Reading.{ReadAs};
ghost use Rattle.statement.specs.Writing.{write_rows, written};

use crate::StatementFault;
use crate::form::{AMOUNT, MOST_BYTES, is_within, length_of};
use ledger::Line;

/// Writes the month's lines at the start of the buffer, and answers how many bytes they take.
#[tactic(auto, using(crate::proofs::Distinct::distinct, crate::proofs::Longest::longest))]
pub fn write(month: u32, lines: &[Line], out: &mut [u8]) -> Result<usize, StatementFault>
    ensures answer { result ≡ judged (write_rows month lines.now (length out.old)) (length_of (length lines.now)) }
    ensures after { out.new ≡ kept_or result (written month lines.now out.old) out.old }
    ensures read_back { OnOk result (ReadAs (take (length_of (length lines.now)) out.new) month lines.now) }
    ensures booked { Dated month → length lines.now ≤ 64 → All Bounded lines.now → result ≢ Err Limits }
    ensures distinct { Distinct }

    // `MOST_BYTES` are enough for any lines, and some lines need them all.
    ensures enough { MOST_BYTES ≤ length out.old → result ≢ Err Buffer }
    ensures needed { (ls : List Line) × (within 1 ls ≡ true) × (length (encoding 1 ls) ≡ MOST_BYTES) }
{
    if !is_within(month, lines) {
        return Err(StatementFault::Limits);
    }
    let length = length_of(lines.len());
    if out.len() < length {
        return Err(StatementFault::Buffer);
    }
    encode(month as u8, lines, &mut out[..length]);
    Ok(length)
}

/// Writes the month and the lines over a statement's bytes.
fn encode(month: u8, lines: &[Line], statement: &mut [u8])
    requires few { length lines.now ≤ 64 }
    requires room { length statement.old ≡ length_of (length lines.now) }
    ensures { statement.new ≡ encoding month lines.now }
{
    let (head, amounts) = statement.split_at_mut(2);
    head.copy_from_slice(&[month, lines.len() as u8]);
    let (rights, penalties) = amounts.split_at_mut(AMOUNT * lines.len());
    put_amounts(lines, rights, penalties);
}

/// Writes each line's right and penalty, each among its like.
fn put_amounts(lines: &[Line], rights: &mut [u8], penalties: &mut [u8])
    requires rights { length rights.old ≡ 8 * length lines.now }
    requires penalties { length penalties.old ≡ 8 * length lines.now }
    ensures rights { rights.new ≡ flat_map right_bytes lines.now }
    ensures penalties { penalties.new ≡ flat_map penalty_bytes lines.now }
{
    for (place, line) in lines.iter().enumerate() {
        put_amount(line.right, place, rights);
        put_amount(line.penalty, place, penalties);
    }
}

/// Writes an amount's bytes at its place among others.
fn put_amount(amount: u64, place: usize, amounts: &mut [u8])
    requires { 8 * place + 8 ≤ length amounts.old }
    ensures { amounts.new ≡ splice amounts.old (8 * place) (8 * place + 8) (to_le_bytes w64 amount) }
{
    let begins = AMOUNT * place;
    amounts[begins..begins + AMOUNT].copy_from_slice(&amount.to_le_bytes());
}
