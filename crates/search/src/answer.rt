//! What a call answers.
use crate::verdict::Verdict;

/// What one of the five calls answered where it was not refused.
#[derive(Clone, Copy, PartialEq, Eq, Debug)]
pub enum Answer {
    /// The opening or the lift was done.
    Done,
    /// So many steps were made.
    Made(u32),
    /// The verdict that stands.
    Stands(Verdict),
    /// So many bytes of the plan were written.
    Wrote(usize),
}
