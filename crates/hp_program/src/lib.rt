//! Programs of operations with branches and loops, whatever the operations are: what such a program means, and the laws
//! of that meaning.
#![tactic(auto)]
