//! The library, played by calls as data.
use crate::call::{Answer, Call, Kind, Module, Refusal, Report, Rule, Test};
use ledger::{Ledger, LedgerFault};
use metering::{Demand, DemandHour, Energy, Storage, StorageHour, Thermal, ThermalHour};
use sharing::{Remainder, Row, Running};
use std::alloc::{AllocError, Global};

/// What stands as each row's id, and as its charge before a call.
const ID: u32 = 7;

const OLD_CHARGE: u64 = 99;

/// What the library answers.
type Given = Result<u64, LedgerFault>;

/// Which of two calls that are given the same: that of metering, reporting or advancing, or that of claims, upholding or
/// closing.
#[derive(Clone, Copy)]
enum Turn {
    Metering,
    Claims,
}

/// Makes a call of the library's ledger.
pub fn play(heap: Global, ledger: &mut Ledger, call: &Call) -> Result<Answer, AllocError> {
    match call {
        Call::Report { facility, report } => {
            let given = report_by(heap, ledger, *facility, report, Turn::Metering)?;
            Ok(without_rows(heap, given))
        }
        Call::Uphold { facility, report } => {
            let given = report_by(heap, ledger, *facility, report, Turn::Claims)?;
            Ok(without_rows(heap, given))
        }
        Call::Advance { rule, mwhs } => share(heap, ledger, *rule, mwhs, Turn::Metering),
        Call::Close { rule, mwhs } => share(heap, ledger, *rule, mwhs, Turn::Claims),
        _ => Ok(without_rows(heap, plain(ledger, call))),
    }
}

/// Makes a call that has neither a report nor rows.
fn plain(ledger: &mut Ledger, call: &Call) -> Given {
    match call {
        Call::Open {
            year_hours,
            firsts,
            lengths,
        } => done(ledger.open(*year_hours, firsts, lengths)),
        Call::Register {
            letter,
            modules,
            count,
            access,
        } => number(ledger.register(*letter, modules.map(module), *count, *access)),
        Call::Switch { facility, on } => done(ledger.switch(*facility, *on)),
        Call::Award {
            facility,
            kw,
            price,
        } => number(ledger.award(*facility, *kw, *price)),
        Call::Cede {
            award,
            giver,
            taker,
            kw,
        } => done(ledger.cede(*award, *giver, *taker, *kw)),
        Call::Claim { facility } => done(ledger.claim(*facility)),
        Call::Dismiss { facility } => done(ledger.dismiss(*facility)),
        _ => done(ledger.cut_off()),
    }
}

/// Hands in a report, or upholds a claim by it.
fn report_by(
    heap: Global,
    ledger: &mut Ledger,
    facility: u32,
    report: &Report,
    turn: Turn,
) -> Result<Given, AllocError> {
    let hours = report.hours.iter();
    match report.kind {
        Kind::Thermal => {
            let hours: Vec<ThermalHour> = hours
                .map(|&(declared, least)| ThermalHour { declared, least })
                .collect(heap)?;
            by_kind::<Thermal>(heap, ledger, facility, &hours, &report.test, turn)
        }
        Kind::Storage => {
            let hours: Vec<StorageHour> = hours
                .map(|&(power, stored)| StorageHour { power, stored })
                .collect(heap)?;
            by_kind::<Storage>(heap, ledger, facility, &hours, &report.test, turn)
        }
        Kind::Demand => {
            let hours: Vec<DemandHour> = hours
                .map(|&(consumption, residual)| DemandHour {
                    consumption,
                    residual,
                })
                .collect(heap)?;
            by_kind::<Demand>(heap, ledger, facility, &hours, &report.test, turn)
        }
    }
}

/// The same of hours of a kind.
fn by_kind<K: metering::Kind>(
    heap: Global,
    ledger: &mut Ledger,
    facility: u32,
    hours: &[K::Hour],
    test: &Option<Test>,
    turn: Turn,
) -> Result<Given, AllocError> {
    let Some(test) = test else {
        let report = metering::Report::<K> { hours, test: None };
        return Ok(give(ledger, facility, &report, turn));
    };
    let pairs: Vec<Energy> = test
        .pairs
        .iter()
        .map(|&(ordered, delivered)| Energy { ordered, delivered })
        .collect(heap)?;
    let test = metering::Test {
        first: test.first,
        hours: &pairs,
    };
    let report = metering::Report::<K> {
        hours,
        test: Some(test),
    };
    Ok(give(ledger, facility, &report, turn))
}

/// Hands in a report, or upholds a claim by it.
fn give<K: metering::Kind>(
    ledger: &mut Ledger,
    facility: u32,
    report: &metering::Report<K>,
    turn: Turn,
) -> Given {
    match turn {
        Turn::Metering => done(ledger.report(facility, report)),
        Turn::Claims => done(ledger.uphold(facility, report)),
    }
}

/// Advances or closes the month over rows of these MWh.
fn share(
    heap: Global,
    ledger: &mut Ledger,
    rule: Rule,
    mwhs: &[u32],
    turn: Turn,
) -> Result<Answer, AllocError> {
    let mut rows: Vec<Row> = mwhs
        .iter()
        .map(|&mwh| Row {
            id: ID,
            mwh,
            charge: OLD_CHARGE,
        })
        .collect(heap)?;
    let given = match (turn, rule) {
        (Turn::Metering, Rule::Running) => ledger.advance(&Running, &mut rows),
        (Turn::Metering, Rule::Remainder) => ledger.advance(&Remainder, &mut rows),
        (Turn::Claims, Rule::Running) => ledger.close(&Running, &mut rows),
        (Turn::Claims, Rule::Remainder) => ledger.close(&Remainder, &mut rows),
    };
    Ok(Answer {
        value: given.map_err(refusal),
        charges: charges_in(heap, &rows, mwhs, given.is_ok())?,
    })
}

/// What the rows are charged; nothing where the call was refused. Rows that have changed otherwise are told by one charge
/// too many.
fn charges_in(
    heap: Global,
    rows: &[Row],
    mwhs: &[u32],
    is_accepted: bool,
) -> Result<Vec<u64>, AllocError> {
    let kept = rows
        .iter()
        .zip(mwhs)
        .all(|(row, &mwh)| row.id == ID && row.mwh == mwh);
    let untouched = rows.iter().all(|row| row.charge == OLD_CHARGE);
    let mut charges: Vec<u64> = Vec::new(heap);
    if is_accepted || !untouched {
        charges = rows.iter().map(|row| row.charge).collect(heap)?;
    }
    if !kept {
        charges.push(OLD_CHARGE)?;
    }
    Ok(charges)
}

/// The answer of a call that leaves no charges.
fn without_rows(heap: Global, given: Given) -> Answer {
    Answer {
        value: given.map_err(refusal),
        charges: Vec::new(heap),
    }
}

/// What is answered where no value is.
fn done(given: Result<(), LedgerFault>) -> Given {
    given.map(|()| 0)
}

/// What is answered where a number is given out.
fn number(given: Result<u32, LedgerFault>) -> Given {
    given.map(u64::from)
}

/// The library's module.
fn module(module: Module) -> ledger::Module {
    ledger::Module::new(module.installed, module.coefficient)
}

/// What a fault of the library says.
pub fn refusal(fault: LedgerFault) -> Refusal {
    Refusal {
        number: fault.number(),
        layer: fault.layer(),
        place: fault.place(),
    }
}
