//! A part of a search: what is left of each step and of each level.
ghost use Rattle.std.specs.Prelude.{◌≡◌, ◌≤◌, length};

use crate::refusal::Refusal;
use sets::{ActionSet, Literals};

/// A part of round k: for steps 0 to k - 1 the actions left, for levels 0 to k the values left of each fact. What stands
/// past the round says nothing.
// Stays arrays with the round beside them: a part is copied without an allocation, and vectors of one size are not copied.
#[derive(Clone, Copy, PartialEq, Eq, Debug)]
pub struct Part {
    pub round: u8,
    pub steps: [ActionSet; 30],
    pub levels: [Literals; 31],
    ghost wide: { length steps ≡ 30 },
    ghost long: { length levels ≡ 31 },
}

/// A part of a round up to 30, so that it has each of its steps and levels: filtering can't refuse it.
#[derive(Clone, Copy, PartialEq, Eq, Debug)]
pub struct BoundedPart {
    pub part: Part,
    ghost few: { part.round ≤ 30 },
}

impl TryFrom<Part> for BoundedPart {
    type Error = Refusal;

    ghost use Rattle.filter.specs.Bounds.{Bounds};

    ghost try_from_gives = { Bounds };

    fn try_from(part: Part) -> Result<BoundedPart, Refusal> {
        if part.round > 30 {
            return Err(Refusal::Round);
        }
        Ok(BoundedPart { part })
    }
}
