//! The commands of `hpat`: the call that the program makes, over files and outputs that it is handed.
#![tactic(auto)]

pub mod answer;
pub mod commands;
pub mod compile;
pub mod hpat;
pub mod kept;
pub mod tables;
pub mod words;
