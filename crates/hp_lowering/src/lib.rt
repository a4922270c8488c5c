//! From a program with loops to the program of all ranks: the code of each step, and of a program of steps.
#![tactic(auto)]

mod counts;
pub mod laws;
mod loops;
pub mod lower;
mod operations;
mod plan;
mod steps;
