//! Tests of the pieces of the ranks' program: codes made of them, run in lockstep on 1 to 6 ranks.
#![tactic(auto)]

#[cfg(test)]
mod codes;
#[cfg(test)]
mod coll;
#[cfg(test)]
mod exchange;
