//! Tests of the ranks' program: single instructions on one rank's store, and small codes that run in lockstep.
#![tactic(auto)]

#[cfg(test)]
mod local;
#[cfg(test)]
mod lockstep;
