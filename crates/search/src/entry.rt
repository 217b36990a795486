//! What is open in a search.
use filter::part::BoundedPart;
use memories::row::Row;

/// A part that is open, with the step that its parent was split at; none for the first part of a round.
#[derive(Clone, Copy)]
pub struct OpenPart {
    pub part: BoundedPart,
    pub from: Option<u8>,
}

/// What is open in a search: a part, or a pair that is due to be kept once everything above it is gone.
#[derive(Clone, Copy)]
pub enum Entry {
    Open(OpenPart),
    Pending(Row),
}
