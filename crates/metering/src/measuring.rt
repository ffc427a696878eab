//! What a report comes to: counted hours and credited energy.
ghost use Rattle.std.specs.Prelude.{◌≡◌, ◌+◌, ◌*◌, ◌≤◌, length, take, map, IfOk, IfSome, OnOk};
ghost use Rattle.calendar.specs.Stress.{stress_hours};
ghost use Rattle.metering.specs.Testing.{failed_at};
ghost use Rattle.metering.specs.Meaning.{report_meaning};
ghost use Rattle.metering.specs.Measuring.{unfailed_energy, failed_outside, counting, crediting, measuring};

use crate::{Kind, MeteringFault, Report, Test};
use calendar::Calendar;

/// The most records of a report: a year has no more stress hours.
const MOST_RECORDS: usize = 878;

/// Which records of a report are of failed hours, by their index.
type FailedRecords = [bool; MOST_RECORDS];

/// No record is of a failed hour.
const NONE_FAILED: FailedRecords = [false; MOST_RECORDS];

/// What a month of a facility comes to: how many hours count, and the energy credited in them, in kWh.
#[derive(Clone, Copy, PartialEq, Eq, Debug)]
pub struct Measured {
    pub counted: u32,
    pub credited: u64,
}

impl Measured {
    /// The energy required of a commitment, in kWh.
    pub fn required(self, commitment: u32) -> u64
        ensures { result ≡ commitment * self.counted }
    {
        u64::from(commitment) * u64::from(self.counted)
    }
}

/// Measures a month's report under a commitment, or refuses it. Nothing is changed. No more energy is credited
/// than required, and a test that is taken has an hour.
pub fn measure<K: Kind>(
    calendar: &Calendar,
    month: u32,
    commitment: u32,
    report: &Report<K>,
) -> Result<Measured, MeteringFault>
    ensures answer { result ≡ measuring (report_meaning K.Kind report.now) calendar.now month commitment }
    ensures within { IfOk result (λ measured. measured.credited ≤ commitment * measured.counted) }
    ensures tested { OnOk result (IfSome report.now.test (λ test. 1 ≤ length test.hours.now)) }
{
    if report.hours.len() != calendar.stress_hours_in(month) as usize {
        return Err(MeteringFault::Records);
    }
    let counted = report.counted(calendar, month)?;
    let credited = report.credited_in(calendar, month, commitment);
    Ok(Measured { counted, credited })
}

/// What a month without a report comes to: its stress hours count, and nothing is credited.
pub fn unreported(calendar: &Calendar, month: u32) -> Measured
    ensures counted { result.counted ≡ length (stress_hours calendar.now month) }
    ensures credited { result.credited ≡ 0 }
{
    Measured {
        counted: calendar.stress_hours_in(month),
        credited: 0,
    }
}

impl<K: Kind> Report<'_, '_, K> {
    /// How many hours count in the month; refused where the test is not in order.
    fn counted(&self, calendar: &Calendar, month: u32) -> Result<u32, MeteringFault>
        ensures { result ≡ counting (report_meaning K.Kind self.now) calendar.now month }
    {
        let stress = calendar.stress_hours_in(month);
        let Some(test) = &self.test else {
            return Ok(stress);
        };
        test.check::<K>(calendar.month_hours(month))?;
        Ok(stress + failed_outside(calendar, test))
    }

    /// The energy credited under a commitment in the stress hours of the month, by their records.
    fn credited_in(&self, calendar: &Calendar, month: u32, commitment: u32) -> u64
        requires one_each { length self.now.hours.now ≡ length (stress_hours calendar.now month) }
        requires few { length self.now.hours.now ≤ 878 }
        ensures { result ≡ crediting (report_meaning K.Kind self.now) calendar.now month commitment }
    {
        match &self.test {
            None => self.credited(&NONE_FAILED, commitment),
            Some(test) => self.credited(&failed_records(calendar, month, test), commitment),
        }
    }

    /// The energy credited under a commitment by the records that are not of failed hours.
    fn credited(&self, failed: &FailedRecords, commitment: u32) -> u64
        requires { length self.now.hours.now ≤ 878 }
        ensures { result ≡ unfailed_energy K.credit commitment failed.now self.now.hours.now }
    {
        let mut credited = 0;
        for (i, record) in self.hours.iter().enumerate() {
            if failed[i] {
                continue;
            }
            credited += u64::from(K::credit(record, commitment));
        }
        credited
    }
}

/// Which records of a month are of hours that failed in the test.
fn failed_records(calendar: &Calendar, month: u32, test: &Test) -> FailedRecords
    requires { length (stress_hours calendar.now month) ≤ 878 }
    ensures { take (length (stress_hours calendar.now month)) result
        ≡ map (failed_at test.now.first test.now.hours.now) (stress_hours calendar.now month) }
{
    let mut failed = NONE_FAILED;
    for (i, hour) in calendar.stress_hours(month).enumerate() {
        failed[i] = test.failed_at(hour);
    }
    failed
}

/// How many hours of a test failed and are no stress hours.
fn failed_outside(calendar: &Calendar, test: &Test) -> u32
    requires { test.now.first + length test.now.hours.now ≤ 8784 }
    ensures value { result ≡ failed_outside calendar.now test.now.first test.now.hours.now }
    ensures bound { result ≤ 8784 }
{
    (test.first..test.first + test.hours.len() as u32)
        .filter(|&hour| test.failed_at(hour) && !calendar.is_stress(hour))
        .count() as u32
}
