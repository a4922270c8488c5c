//! Tests of the inference on constraints that are written by hand: what is found, and in how many steps.
#![tactic(auto)]

#[cfg(test)]
mod counted;
#[cfg(test)]
mod rounds;
#[cfg(test)]
mod rows;
