//! Judging a call by the journal: whether it is accepted, with which value and charges, or why it is refused.

use super::course::Stage;
use super::entries::{self, Entry};
use super::hours::Calendar;
use super::money::Reckoning;
use super::refusals::{Reason, Setback};
use super::{charges, claims, facilities, measures, trading};
use crate::call::{Call, Refusal, Report, Rule, Sort};
use std::alloc::Global;

/// What an accepted call answers: its value, and what each buyer's row is charged.
#[derive(Drop)]
pub struct Granted {
    pub value: u64,
    pub charges: Vec<u64>,
}

/// Judges a call by the entries so far.
pub fn judge(heap: Global, entries: &[Entry], call: &Call) -> Result<Granted, Setback> {
    let stage = Stage::after(entries);
    stage.admit(Sort::of(call))?;
    match call {
        Call::Advance { rule, mwhs } => charge(heap, entries, stage, *rule, mwhs.as_slice()),
        Call::Close { rule, mwhs } => {
            claims::check_none_open(entries)?;
            charge(heap, entries, stage, *rule, mwhs.as_slice())
        }
        Call::Report { facility, report } => {
            judge_report(heap, entries, stage, *facility, report)?;
            Ok(without_rows(heap, 0))
        }
        Call::Uphold { facility, report } => {
            judge_report(heap, entries, stage, *facility, report)?;
            claims::check_open(entries, *facility)?;
            Ok(without_rows(heap, 0))
        }
        _ => Ok(without_rows(heap, judge_by_entries(entries, call)?)),
    }
}

/// The answer to a call without rows.
fn without_rows(heap: Global, value: u64) -> Granted {
    Granted {
        value,
        charges: Vec::new(heap),
    }
}

/// Judges a call that brings neither rows nor a report, and gives its value.
fn judge_by_entries(entries: &[Entry], call: &Call) -> Result<u64, Refusal> {
    match call {
        Call::Open {
            year_hours,
            firsts,
            lengths,
        } => judge_opening(*year_hours, firsts.as_slice(), lengths.as_slice()),
        Call::Register {
            letter,
            modules,
            count,
            access,
        } => facilities::judge_registering(entries, *letter, modules, *count, *access),
        Call::Switch { facility, .. } => {
            facilities::check_number(entries, *facility)?;
            Ok(0)
        }
        Call::Award {
            facility,
            kw,
            price,
        } => trading::judge_awarding(entries, *facility, *kw, *price),
        Call::Cede {
            award,
            giver,
            taker,
            kw,
        } => trading::judge_ceding(entries, *award, *giver, *taker, *kw),
        Call::Claim { facility } => claims::judge_claiming(entries, *facility),
        Call::Dismiss { facility } => claims::judge_dismissing(entries, *facility),
        _ => Ok(0),
    }
}

/// Judges an opening.
fn judge_opening(year_hours: u32, firsts: &[u16], lengths: &[u16]) -> Result<u64, Refusal> {
    Calendar {
        year_hours,
        firsts,
        lengths,
    }
    .judge()?;
    Ok(0)
}

/// Judges a report of the month for a facility.
fn judge_report(
    heap: Global,
    entries: &[Entry],
    stage: Stage,
    facility: u32,
    report: &Report,
) -> Result<(), Setback> {
    facilities::check_number(entries, facility)?;
    let letter = facilities::registered(entries, facility).map(|given| given.letter);
    if letter != Some(report.kind.letter()) {
        return Err(Setback::from(Reason::OtherKind));
    }
    let Some(calendar) = entries::calendar(entries) else {
        return Err(Setback::from(Reason::NotOpened));
    };
    let hours = calendar.month_hours(heap, stage.month())?;
    measures::judge_report(&hours, report)?;
    Ok(())
}

/// Reckons the month's total and charges it to the rows.
fn charge(
    heap: Global,
    entries: &[Entry],
    stage: Stage,
    rule: Rule,
    mwhs: &[u32],
) -> Result<Granted, Setback> {
    charges::check_rows(mwhs)?;
    let Some(reckoning) = Reckoning::of(heap, entries, stage.month())? else {
        return Err(Setback::from(Reason::OtherStage));
    };
    let sums = reckoning.sums()?;
    let total = sums.right.saturating_sub(sums.penalty);
    let charges = charges::charges(heap, rule, total, mwhs)?;
    Ok(Granted {
        value: total,
        charges,
    })
}
