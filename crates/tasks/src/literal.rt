//! Literals as signed numbers.
ghost use Rattle.std.specs.Prelude.{◌≡◌, ◌+◌, ◌≤◌, true, unsigned_abs};
ghost use Rattle.sets.specs.Signs.{says};

use crate::refusal::Refusal;
use std::ops::Neg;

/// A literal: plus the fact's number and one says that the fact is true, minus the same that it is false.
#[derive(Clone, Copy, PartialEq, Eq, Debug)]
pub struct Literal {
    number: i8,
    ghost some: { 1 ≤ unsigned_abs number },
    ghost few: { unsigned_abs number ≤ 64 },
}

impl Literal {
    /// The fact.
    pub fn fact(self) -> usize
        ensures { result + 1 ≡ unsigned_abs self.number }
    {
        self.number.unsigned_abs() as usize - 1
    }

    /// Whether it says that the fact is true.
    pub fn is_true(self) -> bool
        ensures { result ≡ says self.number true }
    {
        self.number > 0
    }
}

/// The literal of a number from 1 to 64 or from -1 to -64.
impl TryFrom<i8> for Literal {
    ghost use Rattle.tasks.specs.Literals.{Reads};

    type Error = Refusal;

    ghost try_from_gives = { Reads };

    fn try_from(number: i8) -> Result<Literal, Refusal> {
        if number == 0 || !(-64..=64).contains(&number) {
            return Err(Refusal::Literal);
        }
        Ok(Literal { number })
    }
}

/// The opposite of a literal is its negation.
impl Neg for Literal {
    ghost use Rattle.tasks.specs.Literals.{IsOpposite};

    type Output = Literal;

    ghost neg_gives = { IsOpposite };

    fn neg(self) -> Literal {
        Literal {
            number: -self.number,
        }
    }
}
