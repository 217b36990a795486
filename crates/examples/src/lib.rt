//! Worked examples: what the search does on small tasks, step by step, proved of the definitions that its contracts cite.
#![tactic(auto)]

pub mod calls;
pub mod table;
