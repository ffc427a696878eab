//! Taking a facility's report of the month.
ghost use Rattle.std.specs.Prelude.{◌≡◌, ◌∷◌, Ok};
ghost use Rattle.metering.specs.Meaning.{report_meaning};
ghost use Rattle.ledger.specs.Judged.{judged, plainly};
ghost use Rattle.ledger.specs.Reporting.{letter_rows, measured_for, with_measured, Reports};
ghost use Rattle.ledger.specs.Entries.{Journal, reporting};
ghost use Rattle.ledger.specs.Runs.{Recorded};

use crate::course::Call;
use crate::kept::Ledger;
use crate::numbers::FacilityNumber;
use crate::state::Book;
use crate::{LedgerFault, Refusal};
use metering::{Kind, Measured, MeteringFault, Report, measure};

impl Ledger {
    /// Takes the facility's report, in place of any that it made before in the month.
    pub fn report<K: Kind>(&mut self, facility: u32, report: &Report<K>) -> Result<(), LedgerFault>
        ensures reports { Reports self.old.book facility (report_meaning K.Kind report.now) result self.new.book }
        ensures recorded { (j : Journal) → Recorded j self.old →
            Recorded (reporting facility (report_meaning K.Kind report.now) result ∷ j) self.new }
    {
        let facility = self.may_report(Call::Report, facility, K::LETTER)?;
        let measured = self.measured(facility, report)?;
        self.book.put_report(facility, measured);
        Ok(())
    }

    /// The facility, where the call may bring a report of this letter for it.
    pub(crate) fn may_report(
        &self,
        call: Call,
        facility: u32,
        letter: u8,
    ) -> Result<FacilityNumber, Refusal>
        ensures { plainly (λ n. n.number) result ≡ judged (letter_rows call self.now.book facility letter) facility }
    {
        let facility = self.admitted(call, facility)?;
        if letter != self.facility(facility).letter {
            return Err(Refusal::OtherLetter);
        }
        Ok(facility)
    }

    /// What the facility's report comes to in the month under way.
    pub(crate) fn measured<K: Kind>(
        &self,
        facility: FacilityNumber,
        report: &Report<K>,
    ) -> Result<Measured, MeteringFault>
        ensures { result ≡ measured_for self.now.book facility.number (report_meaning K.Kind report.now) }
    {
        let commitment = self.commitment(facility);
        let month = self.book.stage.month();
        measure::<K>(&self.book.calendar, month, commitment, report)
    }
}

impl Book {
    /// Puts what the facility's report came to, in place of any that it has; all else stays.
    pub(crate) fn put_report(&mut self, facility: FacilityNumber, measured: Measured)
        ensures { self.new ≡ with_measured self.old facility.number (Ok measured) }
    {
        self.month[facility.place()].measured = Some(measured);
    }
}
