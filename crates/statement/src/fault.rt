//! Why a statement was not written, or not read.
ghost use Rattle.std.specs.Prelude.{◌≡◌};
ghost use Rattle.statement.specs.Fault.{number, place, layer};

use std::error::Error;
use std::fmt;

/// A refusal of writing or reading a statement.
#[derive(Clone, Copy, PartialEq, Eq, Debug)]
pub enum StatementFault {
    /// The bytes are fewer than two, or not as many as their count asks for.
    Length = 25,
    /// The month, the count, a right or a penalty is outside its limits.
    Limits = 26,
    /// The buffer is too small.
    Buffer = 27,
}

impl StatementFault {
    /// The refusal's number.
    pub fn number(self) -> u32
        ensures { result ≡ number self }
    {
        self as u32
    }

    /// The refusal's place, counted from 1; 0 where it has none.
    pub fn place(self) -> u32
        ensures { result ≡ place self }
    {
        match self {
            StatementFault::Length | StatementFault::Limits | StatementFault::Buffer => 0,
        }
    }

    /// The name of the layer that refused.
    pub fn layer(self) -> &'static str
        ensures { result.now ≡ layer self }
    {
        "statement"
    }
}

/// Writes the refusal's number, its layer and its place.
impl fmt::Display for StatementFault {
    ghost use Rattle.std.specs.Prelude.{Some};
    ghost use Rattle.statement.specs.Fault.{text};

    ghost output = { λ fault. Some (text fault) };

    fn fmt<W: fmt::Write>(&self, f: &mut fmt::Formatter<W>) -> fmt::Result {
        let number = self.number();
        let layer = self.layer();
        let place = self.place();
        write!(f, "{number}, layer {layer}, place {place}")
    }
}

impl Error for StatementFault {}
