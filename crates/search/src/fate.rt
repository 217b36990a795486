//! What becomes of a part.
use crate::plan::Plan;
use filter::part::BoundedPart;

/// What becomes of a part: it is dropped, its actions are a plan, or it is split.
#[derive(Drop)]
pub enum Fate {
    Dropped,
    Found(Plan),
    Split(Halves),
}

/// A part that is split: its two halves, the step, and the state before the step.
#[derive(Clone, Copy)]
pub struct Halves {
    pub step: u8,
    pub state: u64,
    pub first: BoundedPart,
    pub second: BoundedPart,
}
