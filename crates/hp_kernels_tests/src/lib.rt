//! Tests of the work on rows, on rows worked out by hand.
#![tactic(auto)]

#[cfg(test)]
mod rows;
