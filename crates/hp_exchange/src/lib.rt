//! Exchanges in which each rank gets the range of an array that it needs.
#![tactic(auto)]

pub mod concats;
pub mod halos;
pub mod moves;
