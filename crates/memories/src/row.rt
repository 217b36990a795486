//! A row of a memory.

/// A pair that a memory holds: a state and a number of actions left.
#[derive(Clone, Copy, PartialEq, Eq, Debug, Default)]
pub struct Row {
    pub state: u64,
    pub left: u8,
}
