//! The outside as the program sees it: files that it reads by name, sinks that take its bytes, and whose turn it is.
#![tactic(auto)]

mod counts;
pub mod files;
pub mod sinks;
pub mod turns;
