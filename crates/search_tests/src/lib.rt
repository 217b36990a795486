//! Tests of the search by its calls, one after the other and played as a list.
#![tactic(auto)]

#[cfg(test)]
mod tests;
