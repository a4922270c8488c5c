// Loops over arrays that lie alike, and the steps of a program with loops.

use hp_air::what::Op;
pub use hp_spmd::instr::{Folding, Out};
use hp_word::elem::Elem;
use hp_word::place::Place;
use hp_word::sequence::Sequence;
use sqlite_items::Items;

/// An array that a loop reads round each place, and how far.
#[derive(Clone, Copy, PartialEq, Eq)]
pub struct Halo {
    pub array: u32,
    pub reach: u32,
}

/// A loop over the places of its leader. It traps at `at` where an input has another length than the leader, or where
/// it has no place and a fold is a least or a greatest. At each place in order it computes its lets in order, of which
/// `Input` reads an input, `Near` a halo, and `Earlier` a let before it; the first trap counts. Its outs become the
/// lists of the values of their lets, and its fold words the folds of such lists.
#[derive(Drop)]
pub struct Parfor {
    pub leader: u32,
    pub inputs: Sequence<u32>,
    pub halos: Sequence<Halo>,
    pub lets: Sequence<Elem>,
    pub outs: Sequence<Out>,
    pub folds: Sequence<Folding>,
    pub at: Place,
}

/// A step: an operation on whole arrays, which is no loop, a loop, or steps under a word.
#[derive(Drop)]
pub enum Step {
    Plain(Op),
    Loop(Parfor),
    /// A word; the steps where it is true, and those where it is not.
    If(u32, Items<Step>, Items<Step>),
    /// The steps that make the word of the test, the word, and the steps as long as it is true.
    While(Items<Step>, u32, Items<Step>),
}
