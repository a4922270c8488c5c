// The steps of a program of the array IR.

use crate::what::Op;
use sqlite_items::Items;

/// A step: an operation, or steps under a word.
#[derive(Debug, Drop)]
pub enum Node {
    Do(Op),
    /// A word; the steps where it is true, and those where it is not.
    If(u32, Items<Node>, Items<Node>),
    /// The steps that make the word of the test, the word, and the steps as long as it is true.
    While(Items<Node>, u32, Items<Node>),
}
