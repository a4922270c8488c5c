//! Scripts: their tokens, their trees and grammar, the shapes of their values, and their canonical text.
#![tactic(auto)]

pub mod argument;
pub mod columns;
pub mod function;
pub mod laws;
pub mod printer;
pub mod rule;
pub mod token;
pub mod tree;
pub mod typed;
