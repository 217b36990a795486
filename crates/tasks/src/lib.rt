//! Tasks: what a planner is asked. A task has facts, actions with needs and effects, a start and goals; it is an
//! interface that is asked, and whoever answers shows that the answers keep the limits and ranges of a task. Tables,
//! bans and restarts are tasks, and so is a snapshot of any task as bit masks.
#![tactic(auto)]

pub mod ban;
pub mod independence;
pub mod literal;
pub mod masks;
pub mod refusal;
pub mod restart;
pub mod row;
mod start;
pub mod states;
pub mod task;

pub use masks::Snapshot;
pub use masks::tables::TableTask;
