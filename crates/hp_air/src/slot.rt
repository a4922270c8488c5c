// Slots: the arrays of a program.

use hp_word::place::NodeId;

/// An array of a program: what it stands for in the script. The slots of one expression, and those of one variable, are
/// a frame, in the order of the columns; of an array or a matrix the only column is 0.
#[derive(Clone, Copy, Debug, PartialEq, Eq)]
pub struct Slot {
    /// The expression that it holds the value of, or a column of it.
    pub node: Option<NodeId>,
    /// The variable that it holds, or a column of it, by the variable's number in the script.
    pub var: Option<u32>,
    pub column: u32,
    pub matrix: bool,
    /// A copy of a stencil's array that is dealt out for the stencil of the expression `node`, a frame by itself.
    pub balanced: bool,
}
