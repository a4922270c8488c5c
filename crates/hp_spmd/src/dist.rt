// How an array lies on the ranks, and where blocks begin, as the crates below name them.

pub use hp_cuts::cuts::start;
pub use hp_lattice::dist::Dist;
