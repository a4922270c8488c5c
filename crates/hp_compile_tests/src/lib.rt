//! Tests of compiled scripts: what all ranks write where they take each instruction together.
#![tactic(auto)]

#[cfg(test)]
mod ranks;
#[cfg(test)]
mod rows;
