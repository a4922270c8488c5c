//! Tests of the machine: small codes under many orders of turns.
#![tactic(auto)]

#[cfg(test)]
mod codes;
#[cfg(test)]
mod orders;
#[cfg(test)]
mod runs;
