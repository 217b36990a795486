//! From the bytes of a job sheet to the text that is printed of it.
#![tactic(auto)]

mod job;
mod judge;
mod read;
pub mod text;
pub mod told;

pub use text::plan_text;
