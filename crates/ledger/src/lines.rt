//! Reading a line of a closed month.
ghost use Rattle.std.specs.Prelude.{◌≡◌, Ok};
ghost use Rattle.ledger.specs.Judged.{ruled};
ghost use Rattle.ledger.specs.Lines.{closed_months, line_rows, booked_line, AnswerBounded};

use crate::LedgerFault;
use crate::course::Call;
use crate::kept::Ledger;
use crate::numbers::{FacilityNumber, MonthNumber};
use crate::state::{LAST_MONTH, Line, Stage};

impl Ledger {
    /// The facility's right and penalty in a closed month; two zeros where it was registered later.
    pub fn line(&self, month: u32, facility: u32) -> Result<Line, LedgerFault>
        ensures answer { result ≡ ruled (line_rows self.now.book month facility) (Ok (booked_line self.now.book month facility)) }
        ensures bound { AnswerBounded result }
    {
        let facility = self.admitted(Call::Line, facility)?;
        let month = self.find_month(month)?;
        Ok(self.booked_line(month, facility))
    }

    /// The line of a facility in a month.
    fn booked_line(&self, month: MonthNumber, facility: FacilityNumber) -> Line
        ensures { result ≡ booked_line self.now.book month.number facility.number }
    {
        self.book.lines.months[month.place()][facility.place()]
    }
}

impl Stage {
    /// How many months are closed.
    pub(crate) fn closed_months(self) -> u32
        ensures { result ≡ closed_months self }
    {
        match self {
            Stage::Unopened => 0,
            Stage::Month(month, _) => month.saturating_sub(1),
            Stage::Finished => LAST_MONTH,
        }
    }
}
