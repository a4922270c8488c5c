//! The sequential meaning of a script: what it prints and how it ends, over whole lists, without ranks.
#![tactic(auto)]

pub mod args;
mod calls;
mod columns;
mod elements;
mod exprs;
pub mod forms;
mod frames;
mod groups;
mod held;
mod joins;
pub mod lambdas;
pub mod laws;
pub mod line;
mod lists;
pub mod loop_laws;
mod loops;
mod matrices;
mod numbers;
mod operands;
pub mod operators;
mod orders;
mod output;
mod places;
pub mod reads;
mod scope;
mod seen;
pub mod seq;
mod sorting;
mod stmts;
mod value;
mod variables;
