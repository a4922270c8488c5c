//! Exchanges in which all ranks take part alike: words folded over all ranks, running sums, loose columns of all ranks as
//! arrays, and what rank 0 writes.
#![tactic(auto)]

pub mod arrive;
pub mod reduce;
pub mod scan;
pub mod sizes;
