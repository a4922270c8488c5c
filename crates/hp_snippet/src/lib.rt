//! Pieces of the ranks' program: how a piece of code leads from one state of all ranks to another, at what cost, and the
//! lemmas that every piece stands on.
#![tactic(auto)]

pub mod laws;
