//! Memories of states from which the goals were not reached: a memory answers whether a state is known with at least so many actions left.
//! A memory may forget what it was told to keep, and it never invents.
#![tactic(auto)]

pub mod list;
pub mod memory;
pub mod none;
pub mod row;
pub mod slot;
pub mod slots;
#[cfg(test)]
mod tests;
