//! Columns of numbers out of tables that are written as comma-separated text.
#![tactic(auto)]

pub mod bad;
mod cell;
mod column;
pub mod read;
mod records;
