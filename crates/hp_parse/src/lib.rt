//! From the tokens of a script to its tree.
#![tactic(auto)]

mod cursor;
pub mod error;
mod expr;
pub mod laws;
mod node;
pub mod parse;
mod stmt;
mod take;
