//! Estimators: an estimator is shown a task, a state and a number of actions left, and may say that it is hopeless.
//! It says so only where no sequence of up to that many actions reaches the goals from the state.
#![tactic(auto)]

pub mod estimator;
pub mod goal_count;
pub mod never;
pub mod relaxed;
#[cfg(test)]
mod tests;
