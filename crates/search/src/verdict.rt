//! What a search has to say.

/// The verdict that stands in a search.
#[derive(Clone, Copy, PartialEq, Eq, Debug)]
pub enum Verdict {
    /// The search was never opened.
    Blank,
    /// The search was opened and neither a plan nor its absence is known yet.
    Unfinished,
    /// A plan was found; it has this many actions.
    Found(u8),
    /// No plan of up to this many actions, the bound, reaches the goals.
    None(u8),
}
