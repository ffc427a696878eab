//! Awards and cessions: who won what, how the kW change hands, and how many of them a facility holds.

use super::entries::{Entry, count};
use super::facilities;
use super::refusals::Reason;
use crate::call::{Call, Refusal, Sort};
use std::ops::RangeInclusive;

/// The most awards that a ledger has room for.
const MOST_AWARDS: u32 = 32;

/// kW of an award that come to a facility: from the auction, or from a facility that cedes them.
#[derive(Clone, Copy)]
pub struct Transfer {
    pub award: u32,
    pub giver: Option<u32>,
    pub taker: u32,
    pub kw: u32,
}

/// The kW that came to some facilities, and those that went from them.
#[derive(Clone, Copy)]
pub struct Flow {
    came: u64,
    went: u64,
}

impl Flow {
    /// No kW yet.
    pub const NONE: Flow = Flow { came: 0, went: 0 };

    /// This flow and what a transfer adds to it for the facilities of these numbers.
    pub fn with(self, transfer: &Transfer, facilities: &RangeInclusive<u32>) -> Flow {
        let kw = u64::from(transfer.kw);
        let takes = facilities.contains(&transfer.taker);
        let gives = transfer
            .giver
            .is_some_and(|giver| facilities.contains(&giver));
        Flow {
            came: self.came.saturating_add(if takes { kw } else { 0 }),
            went: self.went.saturating_add(if gives { kw } else { 0 }),
        }
    }

    /// The kW that came and did not go again.
    pub fn kept(self) -> u64 {
        self.came.saturating_sub(self.went)
    }
}

impl Entry {
    /// The kW that this entry moved, where it is an accepted award or cession.
    pub fn transfer(&self) -> Option<Transfer> {
        match self.accepted()? {
            Call::Award { facility, kw, .. } => Some(Transfer {
                award: u32::try_from(self.value.ok()?).ok()?,
                giver: None,
                taker: *facility,
                kw: *kw,
            }),
            Call::Cede {
                award,
                giver,
                taker,
                kw,
            } => Some(Transfer {
                award: *award,
                giver: Some(*giver),
                taker: *taker,
                kw: *kw,
            }),
            _ => None,
        }
    }
}

/// How many awards are given out.
pub fn how_many(entries: &[Entry]) -> u32 {
    count(entries, Sort::Awarding)
}

/// Refuses an award's number that is not given out.
pub fn check_number(entries: &[Entry], award: u32) -> Result<(), Refusal> {
    if (1..=how_many(entries)).contains(&award) {
        Ok(())
    } else {
        Err(Reason::NoAward.refusal())
    }
}

/// The kW of an award that a facility holds.
pub fn held(entries: &[Entry], award: u32, facility: u32) -> u64 {
    let facilities = facility..=facility;
    entries
        .iter()
        .filter_map(|entry| entry.transfer())
        .filter(|transfer| transfer.award == award)
        .fold(Flow::NONE, |flow, transfer| {
            flow.with(&transfer, &facilities)
        })
        .kept()
}

/// The kW that a facility holds over all awards.
pub fn commitment(entries: &[Entry], facility: u32) -> u64 {
    let facilities = facility..=facility;
    entries
        .iter()
        .filter_map(|entry| entry.transfer())
        .fold(Flow::NONE, |flow, transfer| {
            flow.with(&transfer, &facilities)
        })
        .kept()
}

/// Judges an award, and gives its number.
pub fn judge_awarding(
    entries: &[Entry],
    facility: u32,
    kw: u32,
    price: u32,
) -> Result<u64, Refusal> {
    facilities::check_number(entries, facility)?;
    let standing = how_many(entries);
    if standing >= MOST_AWARDS {
        return Err(Reason::NoRoom.refusal());
    }
    if !(1_000..=1_000_000).contains(&kw) || !(1..=100_000).contains(&price) {
        return Err(Reason::Figure.refusal());
    }
    check_firm_power(entries, facility, kw)?;
    Ok(u64::from(standing).saturating_add(1))
}

/// Judges a cession.
pub fn judge_ceding(
    entries: &[Entry],
    award: u32,
    giver: u32,
    taker: u32,
    kw: u32,
) -> Result<u64, Refusal> {
    facilities::check_number(entries, giver)?;
    facilities::check_number(entries, taker)?;
    check_number(entries, award)?;
    if kw == 0 {
        return Err(Reason::Figure.refusal());
    }
    if giver == taker {
        return Err(Reason::SameFacility.refusal());
    }
    if !facilities::is_on(entries, taker) {
        return Err(Reason::TakerOff.refusal());
    }
    if held(entries, award, giver) < u64::from(kw) {
        return Err(Reason::TooFewKw.refusal());
    }
    check_firm_power(entries, taker, kw)?;
    Ok(0)
}

/// Refuses further kW that would bring a facility above its firm power.
fn check_firm_power(entries: &[Entry], facility: u32, more: u32) -> Result<(), Refusal> {
    let holding = commitment(entries, facility).saturating_add(u64::from(more));
    if holding > facilities::firm_power(entries, facility) {
        return Err(Reason::FirmPower.refusal());
    }
    Ok(())
}
