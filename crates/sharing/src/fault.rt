//! Why a total was not shared.
ghost use Rattle.std.specs.Prelude.{◌≡◌};
ghost use Rattle.sharing.specs.Fault.{number, place, layer};

use std::error::Error;
use std::fmt;

/// A refusal of a sharing rule.
#[derive(Clone, Copy, PartialEq, Eq, Debug)]
pub enum SharingFault {
    /// There is a total to share, and the weights add up to nothing.
    NoWeight = 23,
}

impl SharingFault {
    /// The refusal's number.
    pub fn number(self) -> u32
        ensures { result ≡ number self }
    {
        self as u32
    }

    /// The refusal's place, counted from 1; 0 where it has none.
    pub fn place(self) -> u32
        ensures { result ≡ place self }
    {
        match self {
            SharingFault::NoWeight => 0,
        }
    }

    /// The name of the layer that refused.
    pub fn layer(self) -> &'static str
        ensures { result.now ≡ layer self }
    {
        "sharing"
    }
}

/// Writes the refusal's number, its layer and its place.
impl fmt::Display for SharingFault {
    ghost use Rattle.std.specs.Prelude.{Some};
    ghost use Rattle.sharing.specs.Fault.{text};

    ghost output = { λ fault. Some (text fault) };

    fn fmt<W: fmt::Write>(&self, f: &mut fmt::Formatter<W>) -> fmt::Result {
        let number = self.number();
        let layer = self.layer();
        let place = self.place();
        write!(f, "{number}, layer {layer}, place {place}")
    }
}

impl Error for SharingFault {}
