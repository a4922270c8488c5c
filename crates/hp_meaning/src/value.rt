// Values of expressions.

use hp_word::matrix::Matrix;
use hp_word::name::Name;
use hp_word::sequence::Sequence;

/// What the words of a value are.
#[derive(Clone, Copy, PartialEq, Eq)]
pub enum Kind {
    /// Whole numbers.
    Number,
    /// Truth values, as the words 0 and 1.
    Truth,
}

/// A column of a frame.
#[derive(Drop)]
pub struct Column {
    pub name: Name,
    pub cells: Sequence<i64>,
}

/// What an expression gives.
#[derive(Drop)]
pub enum Value {
    /// A number or a truth value.
    Word(Kind, i64),
    /// An array.
    List(Kind, Sequence<i64>),
    Matrix(Matrix),
    /// A frame: its columns, which have one length.
    Frame(Sequence<Column>),
}

/// A variable that has a value.
#[derive(Drop)]
pub struct Var {
    pub name: Name,
    pub value: Value,
}
