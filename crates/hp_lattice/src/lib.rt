//! How an array lies on the ranks, and the order of these distributions, by which the greatest are inferred.
#![tactic(auto)]

pub mod dist;
