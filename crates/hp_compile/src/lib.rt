//! From a script to the program of all ranks, and what every order of their turns has in common with what the script means.
#![tactic(auto)]

pub mod compile;
pub mod error;
mod greatest;
pub mod laws;
pub mod place;
pub mod script;
