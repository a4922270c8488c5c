//! Tests of the lists that are linked by index: the calls of a board and of mailboxes, each at least once.
#![tactic(auto)]

#[cfg(test)]
mod lists;
