//! Lists that are linked by index over tables of nodes, so that each call takes constant time and none but `new` takes
//! memory.
#![tactic(auto)]

pub mod board;
pub mod mailboxes;
