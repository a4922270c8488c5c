//! A session: a machine makes turns, and what it writes goes to a sink.
#![tactic(auto)]

pub mod playing;
