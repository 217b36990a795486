//! Tests of the filter on small parts made by hand.
#![tactic(auto)]

#[cfg(test)]
mod tests;
