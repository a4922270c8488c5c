//! The lexer: from the bytes of a script to its tokens.
#![tactic(auto)]

mod front;
pub mod laws;
pub mod lexer;
