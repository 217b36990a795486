//! The verdict that stands in a search, with what it needs.
use crate::plan::Plan;

/// The verdict that stands in a search; a plan that was found is kept with it.
#[derive(Clone, Copy)]
pub enum Stage {
    Blank,
    Unfinished,
    Found(Plan),
    None,
}
