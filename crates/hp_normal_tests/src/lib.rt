//! Tests of the programs of worked scripts: their operations, one by one, and how many slots they have.
#![tactic(auto)]

#[cfg(test)]
mod programs;
#[cfg(test)]
mod rows;
