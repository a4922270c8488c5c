//! From a script to the array IR, as definitions: where a program keeps what a script names, and the operations that a
//! script is flattened into; and the laws of its slots, types, operations and constraints.
#![tactic(auto)]

pub mod laws;
