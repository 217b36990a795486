//! Sets of facts, of literals, of actions and of stages, each a few words of bits: small values that are copied, compared
//! and combined by whole words.
//! A planner's tasks, levels and parts are made of them. Read `bit_sets` first, then `members`, which goes over the numbers
//! of a set, and `literals`; `word` says what a set asks of a word.
#![tactic(auto)]

pub mod bit_sets;
pub mod literals;
pub mod members;
pub mod word;

pub use crate::bit_sets::{ActionSet, BitSet, FactSet, StageSet};
pub use crate::literals::Literals;
pub use crate::members::Members;
pub use crate::word::Word;
