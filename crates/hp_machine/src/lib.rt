//! Ranks of a code that take turns, with a queue of messages from each to each.
#![tactic(auto)]

pub mod action;
pub mod machine;
pub mod running;
