//! Why a call of the ledger was refused by the ledger itself.
ghost use Rattle.std.specs.Prelude.{◌≡◌};
ghost use Rattle.ledger.specs.Refusals.{number};

/// A refusal of the ledger's own.
#[derive(Clone, Copy, PartialEq, Eq, Debug)]
pub enum Refusal {
    /// No opening was accepted yet.
    NotOpened = 1,
    /// An opening was accepted before.
    OpenedTwice = 2,
    /// The year is over.
    YearOver = 6,
    /// The call does not belong to this phase.
    WrongPhase = 7,
    /// There is no facility of this number.
    NoFacility = 8,
    /// There is no award of this number.
    NoAward = 9,
    /// 64 facilities or 32 awards stand.
    NoRoom = 10,
    /// A figure is outside its limits.
    OutOfLimits = 11,
    /// The giver is the taker.
    GiverIsTaker = 12,
    /// The taker is switched off.
    TakerOff = 13,
    /// The giver holds less.
    HoldsLess = 14,
    /// Firm power would be exceeded.
    OverFirm = 15,
    /// The kind's letter is not the facility's.
    OtherLetter = 16,
    /// The facility has claimed this month.
    ClaimedTwice = 19,
    /// There is no open claim to answer.
    NoClaim = 20,
    /// A claim is still open.
    ClaimOpen = 21,
    /// There are too many rows or MWh.
    RowsOutOfLimits = 22,
    /// The month is not closed.
    NotClosed = 24,
}

impl Refusal {
    /// The refusal's number.
    pub fn number(self) -> u32
        ensures { result ≡ number self }
    {
        self as u32
    }
}
