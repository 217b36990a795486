//! Trying every sequence of actions, the shorter ones first: the yardstick that a planner is compared with. It is slow, and
//! what it answers is beyond doubt.
#![tactic(auto)]

pub mod budget;
mod extend;
pub mod plan;
#[cfg(test)]
mod tests;

pub use budget::OutOfBudget;
pub use plan::shortest_plan;
