//! The reader: from the bytes of a script to a script that fits.
#![tactic(auto)]

pub mod error;
pub mod laws;
pub mod read;
