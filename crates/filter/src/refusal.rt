//! Why a part is not filtered.
ghost use Rattle.std.specs.Prelude.{◌≡◌};
ghost use Rattle.filter.specs.Refusals.{number};

use std::error::Error;
use std::fmt;

/// Why a part is not filtered.
#[derive(Clone, Copy, PartialEq, Eq, Debug)]
pub enum Refusal {
    /// the round is over 30
    Round = 8,
}

impl Refusal {
    // Stays a method of this enum: no crate below those with refusals has a trait that they could share.
    /// The number by which the refusal is known.
    pub fn number(self) -> u8
        ensures value { result ≡ number self }
    {
        self as u8
    }
}

impl fmt::Display for Refusal {
    fn fmt<W: fmt::Write>(&self, f: &mut fmt::Formatter<W>) -> fmt::Result {
        f.write_str(match self {
            Refusal::Round => "the round is over 30",
        })
    }
}

impl Error for Refusal {}
