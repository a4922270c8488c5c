//! The rules of the language: a script fits, or a rule breaks first at a place.
#![tactic(auto)]

mod arguments;
mod before;
pub mod check;
mod copied;
pub mod error;
mod expression;
mod forms;
mod found;
mod frames;
mod names;
mod results;
mod scope;
mod statements;
mod variables;
mod wanted;
