//! The greatest distributions that meet a list of constraints.
#![tactic(auto)]

pub mod infer;
pub mod laws;
pub mod steps;
mod system;
