//! Upholding a claim with a new report.
ghost use Rattle.std.specs.Prelude.{◌≡◌, ◌∷◌, Ok};
ghost use Rattle.metering.specs.Meaning.{report_meaning};
ghost use Rattle.ledger.specs.Upholding.{upheld, Upholds};
ghost use Rattle.ledger.specs.Entries.{Journal, upholding};
ghost use Rattle.ledger.specs.Runs.{Recorded};

use crate::LedgerFault;
use crate::claiming::answerable;
use crate::course::Call;
use crate::kept::Ledger;
use crate::numbers::FacilityNumber;
use crate::state::{Book, Claim};
use metering::{Kind, Measured, Report};

impl Ledger {
    /// Answers the facility's claim, and takes the report in place of the one that it has.
    pub fn uphold<K: Kind>(&mut self, facility: u32, report: &Report<K>) -> Result<(), LedgerFault>
        ensures upholds { Upholds self.old.book facility (report_meaning K.Kind report.now) result self.new.book }
        ensures recorded { (j : Journal) → Recorded j self.old →
            Recorded (upholding facility (report_meaning K.Kind report.now) result ∷ j) self.new }
    {
        let facility = self.may_report(Call::Answer, facility, K::LETTER)?;
        let measured = self.measured(facility, report)?;
        answerable(self.claim_of(facility))?;
        self.book.answer_by(facility, measured);
        Ok(())
    }
}

impl Book {
    /// Puts what the facility's new report came to, and answers its claim.
    fn answer_by(&mut self, facility: FacilityNumber, measured: Measured)
        ensures { self.new ≡ upheld self.old facility.number (Ok measured) }
    {
        self.put_report(facility, measured);
        self.put_claim(facility, Claim::Answered);
    }
}
