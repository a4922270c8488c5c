//! Loops: a script as loops over arrays that lie alike, beside operations on whole arrays, with branches and loops of
//! steps; what it means, how its arrays may lie on the ranks, what the ranks send for it, and which loops can be one.
#![tactic(auto)]

pub mod build;
pub mod copied;
pub mod means;
pub mod parfor;
pub mod parfors;
