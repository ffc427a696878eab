//! The facilities: what they were registered with, their firm power, and whether they are on.

use super::entries::{Entry, count, position};
use super::refusals::Reason;
use crate::call::{Call, Module, Refusal, Sort};

/// The most facilities that a ledger has room for.
const MOST_FACILITIES: u32 = 64;

/// The highest access, and the highest installed power of a module, in kW.
const MOST_KW: u32 = 1_000_000;

/// The highest coefficient of a module, in thousandths.
const MOST_COEFFICIENT: u32 = 1_000;

/// What a facility is registered with; of the modules only those that count.
#[derive(Clone, Copy)]
pub struct Registration<'a> {
    pub letter: u8,
    pub modules: &'a [Module],
    pub access: u32,
}

impl Registration<'_> {
    /// The most kW that the facility may hold.
    pub fn firm_power(&self) -> u64 {
        let thousandths = self.modules.iter().fold(0u64, |sum, module| {
            let share = u64::from(module.installed).saturating_mul(u64::from(module.coefficient));
            sum.saturating_add(share)
        });
        u64::from(self.access).min(thousandths / 1_000)
    }

    /// Whether each figure is within its limits.
    fn is_within_limits(&self) -> bool {
        self.letter.is_ascii_uppercase()
            && self.access <= MOST_KW
            && self.modules.iter().all(|module| module.installed <= MOST_KW
                && module.coefficient <= MOST_COEFFICIENT)
    }
}

/// Judges a registering, and gives the number of the new facility.
pub fn judge_registering(
    entries: &[Entry],
    letter: u8,
    modules: &[Module],
    count_given: u32,
    access: u32,
) -> Result<u64, Refusal> {
    let standing = how_many(entries);
    if standing >= MOST_FACILITIES {
        return Err(Reason::NoRoom.refusal());
    }
    let counted = match count_given {
        1..=4 => first_modules(modules, count_given),
        _ => None,
    };
    let Some(modules) = counted else {
        return Err(Reason::Figure.refusal());
    };
    let given = Registration {
        letter,
        modules,
        access,
    };
    if !given.is_within_limits() {
        return Err(Reason::Figure.refusal());
    }
    Ok(u64::from(standing).saturating_add(1))
}

/// The first modules, as many as count.
fn first_modules(modules: &[Module], counted: u32) -> Option<&[Module]> {
    modules.get(..usize::try_from(counted).ok()?)
}

/// How many facilities are given out.
pub fn how_many(entries: &[Entry]) -> u32 {
    count(entries, Sort::Registering)
}

/// Refuses a facility's number that is not given out.
pub fn check_number(entries: &[Entry], facility: u32) -> Result<(), Refusal> {
    if (1..=how_many(entries)).contains(&facility) {
        Ok(())
    } else {
        Err(Reason::NoFacility.refusal())
    }
}

/// What a facility was registered with.
pub fn registered(entries: &[Entry], facility: u32) -> Option<Registration<'_>> {
    let index = position(entries, Sort::Registering, facility)?;
    match entries.get(index)?.accepted()? {
        Call::Register {
            letter,
            modules,
            count,
            access,
        } => Some(Registration {
            letter: *letter,
            modules: first_modules(modules, *count)?,
            access: *access,
        }),
        _ => None,
    }
}

/// The firm power of a facility, 0 where there is none.
pub fn firm_power(entries: &[Entry], facility: u32) -> u64 {
    registered(entries, facility).map_or(0, |given| given.firm_power())
}

/// Whether a facility is on: as its last switching said, and off without one.
pub fn is_on(entries: &[Entry], facility: u32) -> bool {
    entries
        .iter()
        .rev()
        .find_map(|entry| switched(entry, facility))
        .unwrap_or(false)
}

/// What an accepted switching of the facility said.
fn switched(entry: &Entry, facility: u32) -> Option<bool> {
    match entry.accepted()? {
        Call::Switch {
            facility: named,
            on,
        } if *named == facility => Some(*on),
        _ => None,
    }
}
