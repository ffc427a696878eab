//! A refused call's fault: the lower layer's, carried whole, or the ledger's own.
ghost use Rattle.std.specs.Prelude.{◌≡◌, Some};
ghost use Rattle.ledger.specs.Fault.{number, place, layer, text};
ghost use Rattle.ledger.specs.declared.fault.LedgerFault.TheVariants as ledger;

use crate::Refusal;
use calendar::CalendarFault;
use metering::MeteringFault;
use sharing::SharingFault;
use std::error::Error;
use std::fmt;

/// Why a call was refused.
#[derive(Clone, Copy, PartialEq, Eq, Debug)]
pub enum LedgerFault {
    /// By the calendar, which an opening fills.
    Calendar(CalendarFault),
    /// By metering, which measures a report.
    Metering(MeteringFault),
    /// By the sharing rule.
    Sharing(SharingFault),
    /// By the ledger itself.
    Own(Refusal),
}

impl LedgerFault {
    /// The refusal's number.
    pub fn number(self) -> u32
        ensures { result ≡ number self }
    {
        match self {
            LedgerFault::Calendar(fault) => fault.number(),
            LedgerFault::Metering(fault) => fault.number(),
            LedgerFault::Sharing(fault) => fault.number(),
            LedgerFault::Own(refusal) => refusal.number(),
        }
    }

    /// The refusal's place, counted from 1; 0 where it has none.
    pub fn place(self) -> u32
        ensures { result ≡ place self }
    {
        match self {
            LedgerFault::Calendar(fault) => fault.place(),
            LedgerFault::Metering(fault) => fault.place(),
            LedgerFault::Sharing(fault) => fault.place(),
            LedgerFault::Own(_) => 0,
        }
    }

    /// The name of the layer that refused.
    pub fn layer(self) -> &'static str
        ensures { result.now ≡ layer self }
    {
        match self {
            LedgerFault::Calendar(fault) => fault.layer(),
            LedgerFault::Metering(fault) => fault.layer(),
            LedgerFault::Sharing(fault) => fault.layer(),
            LedgerFault::Own(_) => "ledger",
        }
    }
}

impl From<CalendarFault> for LedgerFault {
    ghost from_gives = { λ fault r. r ≡ ledger.Calendar fault };

    fn from(fault: CalendarFault) -> LedgerFault {
        LedgerFault::Calendar(fault)
    }
}

impl From<MeteringFault> for LedgerFault {
    ghost from_gives = { λ fault r. r ≡ ledger.Metering fault };

    fn from(fault: MeteringFault) -> LedgerFault {
        LedgerFault::Metering(fault)
    }
}

impl From<SharingFault> for LedgerFault {
    ghost from_gives = { λ fault r. r ≡ ledger.Sharing fault };

    fn from(fault: SharingFault) -> LedgerFault {
        LedgerFault::Sharing(fault)
    }
}

impl From<Refusal> for LedgerFault {
    ghost from_gives = { λ refusal r. r ≡ ledger.Own refusal };

    fn from(refusal: Refusal) -> LedgerFault {
        LedgerFault::Own(refusal)
    }
}

/// Writes the refusal's number, its layer and its place.
impl fmt::Display for LedgerFault {
    ghost output = { λ fault. Some (text fault) };

    fn fmt<W: fmt::Write>(&self, f: &mut fmt::Formatter<W>) -> fmt::Result {
        let number = self.number();
        let layer = self.layer();
        let place = self.place();
        write!(f, "{number}, layer {layer}, place {place}")
    }
}

impl Error for LedgerFault {}
