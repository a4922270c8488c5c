//! Tests of the evaluator, from the bytes of a script to what it writes and how it ends, without ranks; and of tables.
#![tactic(auto)]

#[cfg(test)]
mod arrays;
#[cfg(test)]
mod evaluating;
#[cfg(test)]
mod flow;
#[cfg(test)]
mod frames;
#[cfg(test)]
mod orders;
#[cfg(test)]
mod tables;
#[cfg(test)]
mod traps;
