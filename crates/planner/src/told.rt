//! What the text that was written tells.
ghost use Rattle.std.specs.Prelude.{◌≡◌};
ghost use Rattle.planner.specs.declared.told.Untold.TheVariants.{NoRoom};

use std::alloc::AllocError;
use std::error::Error;
use std::fmt;

/// The text that was written, by its number of bytes.
#[derive(Clone, Copy, PartialEq, Eq, Debug)]
pub enum Told {
    /// What planning came to: `found N` and names, `none K` or `unfinished`.
    Report(usize),
    /// That the sheet is refused, and why.
    Refusal(usize),
}

/// Why nothing was written.
#[derive(Clone, Copy, PartialEq, Eq, Debug)]
pub enum Untold {
    /// The buffer has fewer than 800 bytes.
    BufferTooShort,
    /// There is no room for a search.
    NoRoom,
}

impl fmt::Display for Untold {
    fn fmt<W: fmt::Write>(&self, f: &mut fmt::Formatter<W>) -> fmt::Result {
        match self {
            Untold::BufferTooShort => write!(f, "the buffer has fewer than 800 bytes"),
            Untold::NoRoom => write!(f, "there is no room for a search"),
        }
    }
}

impl Error for Untold {}

impl From<AllocError> for Untold {
    ghost from_gives = { λ _ e. e ≡ NoRoom };

    fn from(_error: AllocError) -> Untold {
        Untold::NoRoom
    }
}
