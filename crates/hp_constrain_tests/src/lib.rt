//! A test of the constraints of a program: it answers where there is memory, with the list that is worked out by hand.
#![tactic(auto)]

#[cfg(test)]
mod rows;
