//! One rank of a code, which takes one action at a time; messages come and go by the hand of its caller.
#![tactic(auto)]

pub mod rank;
