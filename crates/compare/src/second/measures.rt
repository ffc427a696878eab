//! Metering: whether a report is in order, and which hours it counts and how much energy it credits.

use super::hours::MonthHours;
use super::refusals::Reason;
use crate::call::{Kind, Refusal, Report, Test};
use std::alloc::{AllocError, Global};
use std::collections::BTreeMap;

/// The most kWh that may be ordered in a test hour.
const MOST_ORDERED: u32 = 1_000_000;

/// How many hours count for a facility, and how many kWh it is credited with.
#[derive(Clone, Copy)]
pub struct Measure {
    pub counted: u64,
    pub credited: u64,
}

/// Judges a report of a month.
pub fn judge_report(hours: &MonthHours, report: &Report) -> Result<(), Refusal> {
    if report.hours.len() != hours.stress.len() {
        return Err(Reason::RecordCount.refusal());
    }
    match &report.test {
        Some(test) => judge_test(hours, report.kind, test),
        None => Ok(()),
    }
}

/// Judges a test: each hour orders a fitting energy, its length suits the kind, and it lies within the month.
fn judge_test(hours: &MonthHours, kind: Kind, test: &Test) -> Result<(), Refusal> {
    if let Some(place) = first_bad_pair(test) {
        return Err(Reason::TestOrder.at(place));
    }
    let length = test.pairs.len();
    let end = u64::from(test.first).saturating_add(length as u64);
    if !kind.test_hours().contains(&length)
        || test.first < hours.first
        || end > u64::from(hours.end)
    {
        return Err(Reason::TestOrder.refusal());
    }
    Ok(())
}

/// The place of the first hour whose ordered energy is out of its limits.
fn first_bad_pair(test: &Test) -> Option<u32> {
    let index = test
        .pairs
        .iter()
        .position(|(ordered, _)| !(1..=MOST_ORDERED).contains(ordered))?;
    Some(u32::try_from(index).unwrap_or(u32::MAX).saturating_add(1))
}

/// What a month's report measures under a commitment; without one every stress hour counts, and nothing is credited.
pub fn measured(
    heap: Global,
    hours: &MonthHours,
    commitment: u64,
    report: Option<&Report>,
) -> Result<Measure, AllocError> {
    let stress_hours = hours.stress.len() as u64;
    let Some(report) = report else {
        return Ok(Measure {
            counted: stress_hours,
            credited: 0,
        });
    };
    let mut records = by_hour(heap, hours, report)?;
    let mut failed_elsewhere = 0u64;
    for hour in failed_hours(heap, report.test.as_ref())?.iter() {
        if records.remove(hour).is_none() {
            failed_elsewhere = failed_elsewhere.saturating_add(1);
        }
    }
    let credited = records
        .values()
        .map(|record| report.kind.credit(*record, commitment))
        .fold(0u64, |sum, credit| sum.saturating_add(credit));
    Ok(Measure {
        counted: stress_hours.saturating_add(failed_elsewhere),
        credited,
    })
}

/// The records of a report by their hours.
fn by_hour(
    heap: Global,
    hours: &MonthHours,
    report: &Report,
) -> Result<BTreeMap<u32, (u32, u32)>, AllocError> {
    let mut records = BTreeMap::new(heap);
    for (hour, record) in hours.stress.iter().zip(report.hours.iter()) {
        records.insert(*hour, *record)?;
    }
    Ok(records)
}

/// The hours of a test that failed.
fn failed_hours(heap: Global, test: Option<&Test>) -> Result<Vec<u32>, AllocError> {
    let mut failed = Vec::new(heap);
    let Some(test) = test else {
        return Ok(failed);
    };
    let mut hour = test.first;
    for (ordered, delivered) in test.pairs.iter() {
        if is_failure(*ordered, *delivered) {
            failed.push(hour)?;
        }
        hour = hour.saturating_add(1);
    }
    Ok(failed)
}

/// Whether a twentieth or more of the ordered energy is missing.
fn is_failure(ordered: u32, delivered: u32) -> bool {
    u64::from(delivered).saturating_mul(100) <= u64::from(ordered).saturating_mul(95)
}
