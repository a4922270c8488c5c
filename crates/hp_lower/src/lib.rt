//! From a script to the program of all ranks.
#![tactic(auto)]

pub mod lower;
