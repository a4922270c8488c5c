//! The array IR: a script as operations on whole arrays, one slot for each array, with branches and loops; what it means,
//! and how its arrays may lie on the ranks.
#![tactic(auto)]

pub mod air;
pub mod constraint;
pub mod laws;
pub mod means;
pub mod node;
pub mod slot;
pub mod what;
