//! The reports of January, whose stress hours are the 44 from 700 to 743.
use crate::answers::{accepted, barred, refused};
use crate::year::Year;
use ledger::LedgerFault;
use metering::{Demand, DemandHour, Energy, Kind, Report, Storage, StorageHour, Test};
use std::process::Abort;
use std::test::Fail;

/// What the store, facility 1, declares of each stress hour.
const STORED: StorageHour = StorageHour {
    power: 2_500,
    stored: 2_500,
};
/// What facility 1 declares where it reports as a consumer does.
const AS_CONSUMER: DemandHour = DemandHour {
    consumption: 2_500,
    residual: 0,
};
/// What the consumer, facility 2, declares of each stress hour.
const DRAWN: DemandHour = DemandHour {
    consumption: 400,
    residual: 0,
};

impl<A: Abort> Year<'_, A> {
    /// Call 22, before the cut-off.
    pub fn report_early(&mut self) -> Result<(), Fail> {
        barred(self.rt, 22, self.report::<Storage>(&[STORED; 44], None), 7)
    }

    /// Calls 25 to 29.
    pub fn report_january(&mut self) -> Result<(), Fail> {
        let answer = self.report::<Demand>(&[AS_CONSUMER; 44], untested());
        barred(self.rt, 25, answer, 16)?;
        let answer = self.report::<Storage>(&[STORED; 43], tested(700, &[pair(0, 0)]));
        refused(self.rt, 26, answer, 17, "metering", 0)?;
        let pairs = [pair(1_000, 1_000), pair(0, 0)];
        let answer = self.report::<Storage>(&[STORED; 44], tested(700, &pairs));
        refused(self.rt, 27, answer, 18, "metering", 2)?;
        let answer = self.report::<Storage>(&[STORED; 44], tested(744, &[pair(1_000, 1_000)]));
        refused(self.rt, 28, answer, 18, "metering", 0)?;
        let answer = self.report::<Storage>(&[STORED; 44], tested(700, &[pair(1_000, 950)]));
        accepted(self.rt, 29, answer, ())
    }
}

impl<A> Year<'_, A> {
    /// Facility 1 reports.
    fn report<K: Kind>(
        &mut self,
        hours: &[K::Hour],
        test: Option<Test>,
    ) -> Result<(), LedgerFault> {
        self.ledger.report::<K>(1, &Report { hours, test })
    }

    /// Facility 2 is upheld, by a report with a test of three hours.
    pub fn uphold(&mut self, first: u32) -> Result<(), LedgerFault> {
        let pairs = [pair(500, 500), pair(500, 475), pair(500, 476)];
        let report: Report<Demand> = Report {
            hours: &[DRAWN; 44],
            test: tested(first, &pairs),
        };
        self.ledger.uphold::<Demand>(2, &report)
    }
}

fn tested(first: u32, hours: &[Energy]) -> Option<Test> {
    Some(Test { first, hours })
}

fn untested() -> Option<Test<'static>> {
    None
}

fn pair(ordered: u32, delivered: u32) -> Energy {
    Energy { ordered, delivered }
}
