//! The statement of a closed month: written, read back, and its first bytes printed.
ghost use Rattle.std.specs.Prelude.{◌≡◌, ◌≤◌, length, IfOk};
ghost use Rattle.std.specs.List.{All};
ghost use Rattle.ledger.specs.Form.{Bounded, Dated};
ghost use Rattle.statement.specs.Encoding.{length_of};
ghost use Rattle.statement.specs.Writing.{written};

use crate::answers::accepted;
use crate::year::Year;
use anyhow::anyhow;
use ledger::{Line, MOST_FACILITIES};
use statement::{MOST_BYTES, read, write};

/// How many bytes of a statement are printed: its month, its count, and the right of facility 1.
const PRINTED: usize = 10;

impl Year<'_> {
    /// Writes the statement of a closed month, holds what is read back against its lines, and prints its first bytes.
    pub fn print_statement(&self, month: u32) -> anyhow::Result<()>
        requires { Dated month }
    {
        let lines = self.lines_of(month)?;
        let count = self.ledger.facilities() as usize;
        let mut bytes = [0; MOST_BYTES];
        let length = write_lines(month, &lines[..count], &mut bytes);
        let statement = &bytes[..length];
        let mut back = [Line::default(); MOST_FACILITIES];
        let answer = read(statement, &mut back);
        let of = accepted(self.rt, "reading a statement", answer)?;
        if of != (month, count) || back != lines {
            return Err(anyhow!("a statement was read back as another"));
        }
        self.print_bytes(statement)
    }

    /// The lines of a closed month, the first of them facility 1's; nothing stands behind the last.
    fn lines_of(&self, month: u32) -> anyhow::Result<[Line; MOST_FACILITIES]>
        ensures { IfOk result (All Bounded) }
    {
        let mut lines = [Line::default(); MOST_FACILITIES];
        for facility in 1..=self.ledger.facilities() {
            let line = self.ledger.line(month, facility);
            lines[facility as usize - 1] = accepted(self.rt, "a line of the month", line)?;
        }
        Ok(lines)
    }

    /// Prints how many bytes there are, and the first of them in hexadecimal.
    fn print_bytes(&self, bytes: &[u8]) -> anyhow::Result<()> {
        print!(self.rt; "statement of {} bytes:", bytes.len())?;
        for byte in bytes.iter().take(PRINTED) {
            print!(self.rt; " {byte:02x}")?;
        }
        println!(self.rt; "")?;
        Ok(())
    }
}

/// Writes the statement of lines as a ledger books them, which a statement may always say, and answers its length.
fn write_lines(month: u32, lines: &[Line], bytes: &mut [u8; MOST_BYTES]) -> usize
    requires dated { Dated month }
    requires few { length lines.now ≤ 64 }
    requires bounded { All Bounded lines.now }
    ensures length { result ≡ length_of (length lines.now) }
    ensures after { bytes.new ≡ written month lines.now bytes.old }
{
    write(month, lines, bytes).unwrap()
}
