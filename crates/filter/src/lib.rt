//! The filter of a planner. `part` has what is filtered, `outcome` what is answered, `filtering` the calls, `theorems` what
//! holds of them for every task. Below them `turns` revises one stage at a time, and `stage` has the rules as masks.
#![tactic(auto)]

pub mod filtering;
mod limits;
pub mod outcome;
pub mod part;
pub mod refusal;
mod stage;
pub mod theorems;
mod turns;

pub use crate::filtering::{filter, filter_from, filter_snapshot};
pub use crate::outcome::Outcome;
pub use crate::part::{BoundedPart, Part};
pub use crate::refusal::Refusal;
pub use sets::StageSet;
