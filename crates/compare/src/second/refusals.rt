//! The reasons for which a call is refused, each with its number and its layer.

use crate::call::Refusal;
use std::alloc::{AllocError, AllocFailed};

/// Why a call is refused, by its number.
#[derive(Clone, Copy)]
pub enum Reason {
    NotOpened = 1,
    OpenedAlready = 2,
    YearLength = 3,
    Runs = 4,
    StressShare = 5,
    Finished = 6,
    OtherStage = 7,
    NoFacility = 8,
    NoAward = 9,
    NoRoom = 10,
    Figure = 11,
    SameFacility = 12,
    TakerOff = 13,
    TooFewKw = 14,
    FirmPower = 15,
    OtherKind = 16,
    RecordCount = 17,
    TestOrder = 18,
    ClaimedAlready = 19,
    NoOpenClaim = 20,
    OpenClaim = 21,
    Rows = 22,
    NoWeight = 23,
    MonthNotClosed = 24,
    StatementLength = 25,
    StatementLimits = 26,
    SmallBuffer = 27,
}

impl Reason {
    /// The refusal for this reason, with no place.
    pub fn refusal(self) -> Refusal {
        self.at(0)
    }

    /// The refusal for this reason, at a place.
    pub fn at(self, place: u32) -> Refusal {
        Refusal {
            number: self as u32,
            layer: self.layer(),
            place,
        }
    }

    /// The layer that gives this reason.
    fn layer(self) -> &'static str {
        match self {
            Reason::YearLength | Reason::Runs | Reason::StressShare => "calendar",
            Reason::RecordCount | Reason::TestOrder => "metering",
            Reason::NoWeight => "sharing",
            Reason::StatementLength | Reason::StatementLimits | Reason::SmallBuffer => "statement",
            _ => "ledger",
        }
    }
}

/// Why a call comes to no good end: it is refused, or memory ran out while it was judged.
#[derive(Drop)]
pub enum Setback {
    Refused(Refusal),
    OutOfMemory(AllocError),
}

impl From<Refusal> for Setback {
    fn from(refusal: Refusal) -> Setback {
        Setback::Refused(refusal)
    }
}

impl From<Reason> for Setback {
    fn from(reason: Reason) -> Setback {
        Setback::Refused(reason.refusal())
    }
}

impl From<AllocError> for Setback {
    fn from(error: AllocError) -> Setback {
        Setback::OutOfMemory(error)
    }
}

impl<T: Drop> From<AllocFailed<T>> for Setback {
    fn from(error: AllocFailed<T>) -> Setback {
        Setback::OutOfMemory(AllocError::from(error))
    }
}

/// Parts the refusals from a want of memory.
pub fn settle<T>(outcome: Result<T, Setback>) -> Result<Result<T, Refusal>, AllocError> {
    match outcome {
        Ok(value) => Ok(Ok(value)),
        Err(Setback::Refused(refusal)) => Ok(Err(refusal)),
        Err(Setback::OutOfMemory(error)) => Err(error),
    }
}
