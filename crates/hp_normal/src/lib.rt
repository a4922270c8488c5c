//! From a script that fits to a program of the array IR.
#![tactic(auto)]

mod calls;
mod column_places;
mod copies;
mod elements;
mod exprs;
mod frames;
mod homes;
mod known;
mod look_ups;
pub mod normalize;
mod operators;
mod parts;
mod places;
mod reach;
mod sides;
mod slots;
mod spans;
mod steps;
mod stmts;
mod values;
