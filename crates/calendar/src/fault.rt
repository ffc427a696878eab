//! Why a calendar is not filled.
ghost use Rattle.std.specs.Prelude.{◌≡◌};
ghost use Rattle.calendar.specs.Faults.{number, place, layer};

use std::error::Error;
use std::fmt;

/// A reason to refuse a filling, the first that applies.
#[derive(Clone, Copy, PartialEq, Eq, Debug)]
pub enum CalendarFault {
    /// The year has neither 8,760 nor 8,784 hours.
    YearHours,
    /// There are over 366 runs, or not as many lengths as first hours.
    Sizes,
    /// A run has no hour, ends after the year, or does not begin at least one hour after the end
    /// of the run before it.
    Run {
        /// Which run is the first such, counted from 1.
        place: u32,
    },
    /// The stress hours are under 5 or over 10 per cent of the year's hours.
    Share,
}

impl CalendarFault {
    /// The refusal's number.
    pub fn number(self) -> u32
        ensures { result ≡ number self }
    {
        match self {
            CalendarFault::YearHours => 3,
            CalendarFault::Sizes => 4,
            CalendarFault::Run { .. } => 4,
            CalendarFault::Share => 5,
        }
    }

    /// The number of the run that is refused, or 0 where the refusal is about no single run.
    pub fn place(self) -> u32
        ensures { result ≡ place self }
    {
        match self {
            CalendarFault::Run { place } => place,
            _ => 0,
        }
    }

    /// The name of the layer that refused.
    pub fn layer(self) -> &'static str
        ensures { result.now ≡ layer self }
    {
        "calendar"
    }
}

/// Writes the refusal's number, its layer and its place.
impl fmt::Display for CalendarFault {
    ghost use Rattle.std.specs.Prelude.{Some};
    ghost use Rattle.calendar.specs.Faults.{text};

    ghost output = { λ fault. Some (text fault) };

    fn fmt<W: fmt::Write>(&self, f: &mut fmt::Formatter<W>) -> fmt::Result {
        let number = self.number();
        let layer = self.layer();
        let place = self.place();
        write!(f, "{number}, layer {layer}, place {place}")
    }
}

impl Error for CalendarFault {}
