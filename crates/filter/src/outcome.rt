//! What became of a part.

/// What became of a part.
#[derive(Clone, Copy, PartialEq, Eq, Debug)]
pub enum Outcome {
    /// the largest consistent part is left
    Kept,
    /// there is no consistent part, and nothing is left
    Wiped,
}
