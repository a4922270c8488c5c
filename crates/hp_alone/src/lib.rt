//! Pieces of code in which each rank computes by itself: words that all ranks make alike, arrays of which each rank
//! makes its own part, copies of arrays, picked elements, looks at lengths, and loops of which each rank does its own
//! places; and of arrays that are whole on each rank the running sums, and one behind another.
#![tactic(auto)]

pub mod copying;
pub mod dealing;
pub mod joining;
pub mod looking;
pub mod looping;
pub mod picking;
pub mod scalars;
mod single;
pub mod summing;
