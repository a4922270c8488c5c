//! Where the block of each rank begins, whose block holds a place, what two ranges share, and which rank a key goes to.
#![tactic(auto)]

pub mod cuts;
#[cfg(test)]
mod tests;
