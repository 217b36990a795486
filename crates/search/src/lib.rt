//! The search for a shortest plan.
#![tactic(auto)]

mod advisers;
pub mod answer;
mod apply;
pub mod call;
mod choose;
pub mod entry;
mod fate;
mod first;
mod parts;
pub mod plan;
pub mod play;
pub mod record;
pub mod refusal;
mod rounds;
mod stack;
pub mod stage;
pub mod theorems;
pub mod verdict;
