//! The budget of trying every sequence.
use std::error::Error;
use std::fmt;

/// The budget was spent before all sequences were tried.
#[derive(Clone, Copy, PartialEq, Eq, Debug)]
pub struct OutOfBudget;

impl fmt::Display for OutOfBudget {
    fn fmt<W: fmt::Write>(&self, f: &mut fmt::Formatter<W>) -> fmt::Result {
        write!(f, "the budget was spent before all sequences were tried")
    }
}

impl Error for OutOfBudget {}
