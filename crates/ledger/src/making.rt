//! A new ledger.
ghost use Rattle.std.specs.Prelude.{◌≡◌, []};
ghost use Rattle.calendar.specs.Form.{IsInForm};
ghost use Rattle.ledger.specs.Making.{blank};
ghost use Rattle.ledger.specs.Runs.{Recorded};

use crate::kept::Ledger;
use crate::state::{
    Book, Claim, Filed, Line, Lines, MOST_FACILITIES, Month, Register, Stage, Trade,
};
use calendar::{Calendar, MONTHS};

/// A month for which nothing has come in.
pub(crate) const NEW_MONTH: Month = [Filed {
    measured: None,
    claim: Claim::None,
}; MOST_FACILITIES];

impl Ledger {
    /// A ledger that is not opened yet.
    pub fn new() -> Ledger
        ensures book { result.book ≡ blank }
        ensures recorded { Recorded [] result }
    {
        Ledger { book: blank_book() }
    }
}

/// A book with no entry in it.
fn blank_book() -> Book
    ensures value { result ≡ blank }
    ensures kept { IsInForm result.calendar }
{
    Book {
        calendar: Calendar::new(),
        stage: Stage::Unopened,
        register: Register::new(),
        trade: Trade::new(),
        month: NEW_MONTH,
        lines: Lines {
            months: [[Line::default(); MOST_FACILITIES]; MONTHS],
        },
    }
}
