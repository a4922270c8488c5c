// Constraints on how arrays lie on the ranks.

use hp_lattice::dist::Dist;

/// What a constraint says of its low array's distribution.
#[derive(Clone, Copy, Debug, PartialEq, Eq)]
pub enum Relation {
    /// It is at most the high one's.
    Same,
    /// It is at most what the high one's may be raised to.
    Up,
    /// It is at most this one; high is low.
    AtMost(Dist),
}

/// A constraint on two arrays, by their slots.
#[derive(Clone, Copy, Debug, PartialEq, Eq)]
pub struct Constraint {
    pub low: u32,
    pub relation: Relation,
    pub high: u32,
}
