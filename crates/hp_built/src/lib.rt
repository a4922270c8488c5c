//! Which constructs of a script ranks can run, while not all of them are built: the first place of one that is not.
#![tactic(auto)]

pub mod construct;
pub mod ranks;
pub mod unbuilt;
