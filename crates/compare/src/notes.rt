//! What the dealer of calls knows of a year, to make calls that may be accepted. No answer is judged by it.
use crate::call::{Call, Module};
use calendar::Calendar;
use ledger::{Ledger, Stage};
use std::alloc::{AllocError, Global};

/// A facility that was registered.
#[derive(Clone, Copy)]
pub struct Registered {
    pub letter: u8,
    pub firm: u32,
}

/// A year, as far as it has come.
#[derive(Drop)]
pub struct Notes {
    pub calendar: Calendar,
    pub facilities: Vec<Registered>,
    /// The facilities whose claims are open.
    pub claimed: Vec<u32>,
}

impl Notes {
    /// A year that is not opened yet.
    pub fn new(heap: Global) -> Notes {
        Notes {
            calendar: Calendar::new(),
            facilities: Vec::new(heap),
            claimed: Vec::new(heap),
        }
    }

    /// Takes note of an accepted call.
    pub fn note(&mut self, call: &Call) -> Result<(), AllocError> {
        match call {
            Call::Open {
                year_hours,
                firsts,
                lengths,
            } => self.open(*year_hours, firsts, lengths),
            Call::Register {
                letter,
                modules,
                count,
                access,
            } => {
                let firm = firm_power(modules, *count, *access);
                let letter = *letter;
                self.facilities.push(Registered { letter, firm })?;
            }
            Call::Claim { facility } => self.claimed.push(*facility)?,
            Call::Dismiss { facility } | Call::Uphold { facility, .. } => {
                self.claimed.retain(|claimed| claimed != facility);
            }
            _ => {}
        }
        Ok(())
    }

    /// Takes note of the year's calendar.
    fn open(&mut self, year_hours: u32, firsts: &[u16], lengths: &[u16]) {
        if self.calendar.fill(year_hours, firsts, lengths).is_err() {
            self.calendar = Calendar::new();
        }
    }

    /// The facility of a number, if it is given out.
    pub fn facility(&self, number: u32) -> Option<Registered> {
        let place = number.checked_sub(1)?;
        self.facilities.get(place as usize).copied()
    }
}

/// The firm power of these modules, the lesser of the access and their whole kW.
fn firm_power(modules: &[Module; 4], count: u32, access: u32) -> u32 {
    let watts = modules
        .iter()
        .take(count as usize)
        .fold(0u64, |all, module| {
            let watts = u64::from(module.installed).saturating_mul(u64::from(module.coefficient));
            all.saturating_add(watts)
        });
    access.min(u32::try_from(watts / 1_000).unwrap_or(u32::MAX))
}

/// The month under way; 12 after the year.
pub fn month_of(ledger: &Ledger) -> u32 {
    match ledger.stage() {
        Stage::Unopened => 1,
        Stage::Month(month, _) => month,
        Stage::Finished => 12,
    }
}

/// The kW that a facility holds under an award; 0 where either number is not given out.
pub fn held_under(ledger: &Ledger, award: u32, facility: u32) -> u32 {
    ledger.holding(award, facility).unwrap_or(0)
}

/// The kW that a facility holds over all awards.
pub fn held_in_all(ledger: &Ledger, facility: u32) -> u32 {
    (1..=ledger.awards()).fold(0, |all: u32, award| {
        all.saturating_add(held_under(ledger, award, facility))
    })
}
