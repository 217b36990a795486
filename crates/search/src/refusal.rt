//! Why a call on a search is refused.
ghost use Rattle.std.specs.Prelude.{◌≡◌};
ghost use Rattle.search.specs.Refusals.{number};

use std::error::Error;
use std::fmt;

/// Why a call on a search is refused.
#[derive(Clone, Copy, PartialEq, Eq, Debug)]
pub enum Refusal {
    /// the search is blank
    Blank = 13,
    /// the bound is over 30, or not above the old one
    Bound = 14,
    /// the amount is not from 1 to 1,000,000
    Amount = 15,
    /// the verdict is not none
    NotNone = 16,
    /// the verdict is not found
    NotFound = 17,
    /// the buffer is shorter than the plan
    Buffer = 18,
}

impl Refusal {
    // Stays a method of this enum: no crate below those with refusals has a trait that they could share.
    /// The number by which the refusal is known.
    pub fn number(self) -> u8
        ensures value { result ≡ number self }
    {
        self as u8
    }
}

impl fmt::Display for Refusal {
    fn fmt<W: fmt::Write>(&self, f: &mut fmt::Formatter<W>) -> fmt::Result {
        f.write_str(match self {
            Refusal::Blank => "the search is blank",
            Refusal::Bound => "the bound is over 30, or not above the old one",
            Refusal::Amount => "the amount is not from 1 to 1,000,000",
            Refusal::NotNone => "the verdict is not none",
            Refusal::NotFound => "the verdict is not found",
            Refusal::Buffer => "the buffer is shorter than the plan",
        })
    }
}

impl Error for Refusal {}
