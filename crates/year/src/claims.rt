//! The claims of the year, and their answers.
use crate::answers::{accepted, refused};
use crate::buyers::of_month;
use crate::facilities::{CONSUMER, LATE_PLANT, NEW_STORE};
use crate::records::Month;
use crate::reports::NEW_STORE_HOURS;
use crate::year::Year;
use ledger::Refusal;
use metering::{Report, Storage};
use sharing::Running;

impl Year<'_> {
    /// Meets the claims of a month.
    pub fn answer_claims(&mut self, month: Month) -> anyhow::Result<()> {
        match month.number {
            3 => self.dismiss_in_march(),
            7 => self.uphold_in_july(month),
            9 => refused(
                self.rt,
                "dismissing where nobody claims",
                Refusal::NoClaim.into(),
                self.ledger.dismiss(CONSUMER),
            ),
            _ => Ok(()),
        }
    }

    /// The late plant claims, once; the claim is dismissed.
    fn dismiss_in_march(&mut self) -> anyhow::Result<()> {
        let answer = self.ledger.claim(LATE_PLANT);
        accepted(self.rt, "the late plant's claim", answer)?;
        refused(
            self.rt,
            "claiming twice",
            Refusal::ClaimedTwice.into(),
            self.ledger.claim(LATE_PLANT),
        )?;
        let answer = self.ledger.dismiss(LATE_PLANT);
        accepted(self.rt, "dismissing the claim", answer)?;
        println!(self.rt; "claim of facility {LATE_PLANT}: dismissed")?;
        Ok(())
    }

    /// The new store, which has not reported, claims. The month is not closed before it is answered; the answer brings its
    /// report.
    fn uphold_in_july(&mut self, month: Month) -> anyhow::Result<()> {
        let answer = self.ledger.claim(NEW_STORE);
        accepted(self.rt, "the new store's claim", answer)?;
        let mut rows = of_month(month.number);
        refused(
            self.rt,
            "closing before the claim is answered",
            Refusal::ClaimOpen.into(),
            self.ledger.close(&Running, &mut rows),
        )?;
        let hours = month.records(self.rt.alloc(), NEW_STORE_HOURS)?;
        let report = Report {
            hours: &hours,
            test: None,
        };
        accepted(
            self.rt,
            "upholding the claim",
            self.ledger.uphold::<Storage>(NEW_STORE, &report),
        )?;
        println!(self.rt; "claim of facility {NEW_STORE}: upheld")?;
        Ok(())
    }
}
