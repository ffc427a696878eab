//! Why a report was not taken.
ghost use Rattle.std.specs.Prelude.{◌≡◌, Some};
ghost use Rattle.metering.specs.Fault.{number, place, layer, text};

use std::error::Error;
use std::fmt;

/// A reason to refuse a report, the first that applies.
#[derive(Clone, Copy, PartialEq, Eq, Debug)]
pub enum MeteringFault {
    /// The report has more records than the month has stress hours, or fewer.
    Records,
    /// The test is too short or too long, does not lie in the month, or has an hour whose ordered energy is outside its
    /// limits.
    Test {
        /// The first such hour, counted from 1, if there is one.
        place: Option<u32>,
    },
}

impl MeteringFault {
    /// The refusal's number.
    pub fn number(self) -> u32
        ensures { result ≡ number self }
    {
        match self {
            MeteringFault::Records => 17,
            MeteringFault::Test { .. } => 18,
        }
    }

    /// The hour of the test that the refusal is about, counted from 1; 0 where it is about none.
    pub fn place(self) -> u32
        ensures { result ≡ place self }
    {
        match self {
            MeteringFault::Records => 0,
            MeteringFault::Test { place } => place.unwrap_or(0),
        }
    }

    /// The name of the layer that refused.
    pub fn layer(self) -> &'static str
        ensures { result.now ≡ layer self }
    {
        "metering"
    }
}

/// Writes the refusal's number, its layer and its place.
impl fmt::Display for MeteringFault {
    ghost output = { λ fault. Some (text fault) };

    fn fmt<W: fmt::Write>(&self, f: &mut fmt::Formatter<W>) -> fmt::Result {
        let number = self.number();
        let layer = self.layer();
        let place = self.place();
        write!(f, "{number}, layer {layer}, place {place}")
    }
}

impl Error for MeteringFault {}
