//! The program that every rank runs: its instructions, one rank's store, what an instruction does to it, and
//! the run in which all ranks take each instruction together.
#![tactic(auto)]

pub mod code;
pub mod dist;
pub mod instr;
pub mod laws;
pub mod local;
pub mod lockstep;
pub mod store;
