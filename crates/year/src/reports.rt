//! What the facilities report of a month's stress hours, and the reports that are not taken.
ghost use Rattle.std.specs.Prelude.{◌≡◌};

use crate::answers::refused;
use crate::facilities::{CONSUMER, LATE_PLANT, NEW_STORE, PLANT, STORE};
use crate::records::{Hours, Month, records};
use crate::year::Year;
use ledger::{Ledger, LedgerFault, Refusal};
use metering::{
    Demand, DemandHour, Energy, Kind, MeteringFault, Report, Storage, StorageHour, Test, Thermal,
    ThermalHour,
};

/// The month from which on the late plant reports.
const LATE_PLANT_REPORTS: u32 = 2;
/// The month from which on the new store reports.
const NEW_STORE_REPORTS: u32 = 8;
/// In its first hours the plant declares less than it holds.
const PLANT_HOURS: Hours<ThermalHour> = Hours {
    first: ThermalHour {
        declared: 60_000,
        least: 20_000,
    },
    after: ThermalHour {
        declared: 80_000,
        least: 20_000,
    },
};
/// In its first hours the store has less energy than power.
const STORE_HOURS: Hours<StorageHour> = Hours {
    first: StorageHour {
        power: 20_000,
        stored: 12_500,
    },
    after: StorageHour {
        power: 20_000,
        stored: 40_000,
    },
};
/// In its first hours the consumer draws little.
const CONSUMER_HOURS: Hours<DemandHour> = Hours {
    first: DemandHour {
        consumption: 9_000,
        residual: 2_500,
    },
    after: DemandHour {
        consumption: 21_000,
        residual: 2_500,
    },
};
/// In its first hours the late plant runs below its least stable power.
const LATE_PLANT_HOURS: Hours<ThermalHour> = Hours {
    first: ThermalHour {
        declared: 14_999,
        least: 15_000,
    },
    after: ThermalHour {
        declared: 40_000,
        least: 15_000,
    },
};
/// In its first hours the new store is empty.
pub const NEW_STORE_HOURS: Hours<StorageHour> = Hours {
    first: StorageHour {
        power: 9_600,
        stored: 0,
    },
    after: StorageHour {
        power: 9_600,
        stored: 9_600,
    },
};
/// A test hour for which nothing was ordered.
const UNORDERED: Energy = Energy {
    ordered: 0,
    delivered: 0,
};

impl Year<'_> {
    /// Takes the reports of a month: those that come each month, and then those of this month alone.
    pub fn take_reports(&mut self, month: Month) -> anyhow::Result<()> {
        self.report_usual::<Thermal>(month, PLANT, PLANT_HOURS)?;
        self.report_usual::<Storage>(month, STORE, STORE_HOURS)?;
        self.report_usual::<Demand>(month, CONSUMER, CONSUMER_HOURS)?;
        if month.number >= LATE_PLANT_REPORTS {
            self.report_usual::<Thermal>(month, LATE_PLANT, LATE_PLANT_HOURS)?;
        }
        if month.number >= NEW_STORE_REPORTS {
            self.report_usual::<Storage>(month, NEW_STORE, NEW_STORE_HOURS)?;
        }
        match month.number {
            1 => self.report_in_january(month),
            2 => self.report_in_february(month),
            3 => self.report_in_march(month),
            4 => self.report_in_april(month),
            _ => Ok(()),
        }
    }

    /// A facility's report of a month, without a test.
    fn report_usual<K: Kind>(
        &mut self,
        month: Month,
        facility: u32,
        hours: Hours<K::Hour>,
    ) -> anyhow::Result<()>
    where
        K::Hour: Copy,
    {
        let all = month.records(self.rt.alloc(), hours)?;
        self.report::<K>("a month's report", facility, &all, None)
    }

    /// The plant reports again, with a test in stress hours, one of which fails.
    fn report_in_january(&mut self, month: Month) -> anyhow::Result<()> {
        let all = month.records(self.rt.alloc(), PLANT_HOURS)?;
        let test = Test {
            first: 710,
            hours: &[pair(951), pair(950), pair(1_000)],
        };
        self.report::<Thermal>("the plant's tested report", PLANT, &all, Some(test))
    }

    /// The plant reports again, with half the records.
    fn report_in_february(&mut self, month: Month) -> anyhow::Result<()> {
        let half = records(self.rt.alloc(), PLANT_HOURS, 0, month.stress / 2)?;
        refused(
            self.rt,
            "half the plant's records",
            MeteringFault::Records.into(),
            hand_in::<Thermal>(&mut self.ledger, PLANT, &half, None),
        )
    }

    /// The store reports again, with a test that orders nothing in its second hour; and the consumer with one that fails
    /// in an hour that is no stress hour.
    fn report_in_march(&mut self, month: Month) -> anyhow::Result<()> {
        let stored = month.records(self.rt.alloc(), STORE_HOURS)?;
        let test = Test {
            first: 1_510,
            hours: &[pair(1_000), UNORDERED],
        };
        refused(
            self.rt,
            "a test that orders nothing",
            MeteringFault::Test { place: Some(2) }.into(),
            hand_in::<Storage>(&mut self.ledger, STORE, &stored, Some(test)),
        )?;
        let consumed = month.records(self.rt.alloc(), CONSUMER_HOURS)?;
        let test = Test {
            first: 1_600,
            hours: &[pair(1_000), pair(900)],
        };
        let call = "the consumer's tested report";
        self.report::<Demand>(call, CONSUMER, &consumed, Some(test))
    }

    /// The consumer reports as a thermal plant does.
    fn report_in_april(&mut self, month: Month) -> anyhow::Result<()> {
        let all = month.records(self.rt.alloc(), PLANT_HOURS)?;
        refused(
            self.rt,
            "a consumer's report as a plant",
            Refusal::OtherLetter.into(),
            hand_in::<Thermal>(&mut self.ledger, CONSUMER, &all, None),
        )
    }
}

/// A test hour for which 1,000 kWh were ordered.
fn pair(delivered: u32) -> Energy
    ensures { result ≡ record { ordered = 1_000; delivered = delivered } }
{
    Energy {
        ordered: 1_000,
        delivered,
    }
}

/// Hands in a report.
pub fn hand_in<K: Kind>(
    ledger: &mut Ledger,
    facility: u32,
    hours: &[K::Hour],
    test: Option<Test>,
) -> Result<(), LedgerFault> {
    ledger.report::<K>(facility, &Report { hours, test })
}
