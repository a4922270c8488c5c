//! Plain data that every part of the compiler speaks of, and arithmetic on 64-bit words that wraps.
#![tactic(auto)]

pub mod elem;
pub mod fold;
pub mod folds;
pub mod lengths;
pub mod matrix;
pub mod name;
pub mod order;
pub mod place;
pub mod sequence;
pub mod table;
pub mod text;
pub mod word;
