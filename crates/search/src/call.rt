//! The five calls as values.

/// One of the five calls on a search, with the number that it is passed.
#[derive(Clone, Copy, PartialEq, Eq, Debug)]
pub enum Call {
    /// open a search, with its bound
    Open(u8),
    /// make steps, so many at most
    Advance(u32),
    /// go on with a larger bound
    Lift(u8),
    /// ask for the verdict, which is never refused
    Verdict,
    /// write the plan into a buffer of this length
    Plan(usize),
}
