//! The ranks of a code that take turns in any order, and what every order has in common with the run in which all ranks
//! take each instruction together.
#![tactic(auto)]

pub mod laws;
