//! Claims against reports: who has claimed this month, and who was answered.

use super::entries::{Entry, this_month};
use super::facilities;
use super::refusals::Reason;
use crate::call::{Call, Refusal};

/// The facility that an accepted claim is of.
fn claimant(entry: &Entry) -> Option<u32> {
    match entry.accepted()? {
        Call::Claim { facility } => Some(*facility),
        _ => None,
    }
}

/// The facility whose claim an accepted call dismisses or upholds.
fn answered(entry: &Entry) -> Option<u32> {
    match entry.accepted()? {
        Call::Dismiss { facility } | Call::Uphold { facility, .. } => Some(*facility),
        _ => None,
    }
}

/// Whether a facility has claimed this month.
fn has_claimed(entries: &[Entry], facility: u32) -> bool {
    this_month(entries)
        .iter()
        .any(|entry| claimant(entry) == Some(facility))
}

/// Whether a facility's claim was answered this month.
fn was_answered(entries: &[Entry], facility: u32) -> bool {
    this_month(entries)
        .iter()
        .any(|entry| answered(entry) == Some(facility))
}

/// Judges a claim.
pub fn judge_claiming(entries: &[Entry], facility: u32) -> Result<u64, Refusal> {
    facilities::check_number(entries, facility)?;
    if has_claimed(entries, facility) {
        return Err(Reason::ClaimedAlready.refusal());
    }
    Ok(0)
}

/// Judges a dismissal.
pub fn judge_dismissing(entries: &[Entry], facility: u32) -> Result<u64, Refusal> {
    facilities::check_number(entries, facility)?;
    check_open(entries, facility)?;
    Ok(0)
}

/// Refuses an answer where the facility has no open claim.
pub fn check_open(entries: &[Entry], facility: u32) -> Result<(), Refusal> {
    if has_claimed(entries, facility) && !was_answered(entries, facility) {
        Ok(())
    } else {
        Err(Reason::NoOpenClaim.refusal())
    }
}

/// Refuses to close a month in which some claim is open.
pub fn check_none_open(entries: &[Entry]) -> Result<(), Refusal> {
    let some_open = this_month(entries)
        .iter()
        .filter_map(|entry| claimant(entry))
        .any(|facility| !was_answered(entries, facility));
    if some_open {
        return Err(Reason::OpenClaim.refusal());
    }
    Ok(())
}
