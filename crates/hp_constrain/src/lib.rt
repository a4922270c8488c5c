//! What a program of the array IR asks of its arrays' distributions, as a list of constraints.
#![tactic(auto)]

pub mod constraints;
mod firsts;
mod frames;
mod rows;
