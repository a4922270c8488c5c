//! Tests of the reader and of the rules, from the bytes of a script to what `check` says of it.
#![tactic(auto)]

#[cfg(test)]
mod calls;
#[cfg(test)]
mod checking;
#[cfg(test)]
mod lexing;
#[cfg(test)]
mod limits;
#[cfg(test)]
mod naming;
#[cfg(test)]
mod reading;
#[cfg(test)]
mod rules;
#[cfg(test)]
mod words;
