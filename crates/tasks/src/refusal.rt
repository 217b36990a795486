//! Why a task is not made.
ghost use Rattle.std.specs.Prelude.{◌≡◌};
ghost use Rattle.tasks.specs.Refusals.{number};

use std::error::Error;
use std::fmt;

/// Why a task is not made, by the number by which the refusal is known.
#[derive(Clone, Copy, PartialEq, Eq, Debug)]
pub enum Refusal {
    /// the number of facts or of actions is outside its limits
    Count = 8,
    /// a table has too few cells
    Short,
    /// a cell is outside its range
    Cell,
    /// an action to ban is not below the number of actions
    Action,
    /// a literal is 0 or beyond the facts, or a fact is listed twice
    Literal,
}

impl Refusal {
    // Stays a method of this enum: no crate below those with refusals has a trait that they could share.
    /// The number by which the refusal is known.
    pub fn number(self) -> u8
        ensures { result ≡ number self }
    {
        self as u8
    }
}

impl fmt::Display for Refusal {
    fn fmt<W: fmt::Write>(&self, f: &mut fmt::Formatter<W>) -> fmt::Result {
        f.write_str(match self {
            Refusal::Count => "the number of facts or of actions is outside its limits",
            Refusal::Short => "a table has too few cells",
            Refusal::Cell => "a cell is outside its range",
            Refusal::Action => "an action to ban is not below the number of actions",
            Refusal::Literal => "a literal is 0 or beyond the facts, or a fact is listed twice",
        })
    }
}

impl Error for Refusal {}
