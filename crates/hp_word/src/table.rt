// Tables of numbers, messages between ranks, and the measures of an aggregate.

ghost use Rattle.hp_word.specs.Tables.{AreEven, AreShort};

use crate::sequence::Sequence;

/// A table: its columns, which have one length of at most 1,048,576.
#[derive(Debug, Drop)]
pub struct Table {
    pub columns: Sequence<Sequence<i64>>,
    pub ghost even: { AreEven columns },
    pub ghost short: { AreShort columns },
}

/// One table for each place where a script reads one, in the order of the text.
#[derive(Debug, Drop)]
pub struct Tables {
    pub list: Sequence<Table>,
}

/// What one rank sends to another at once.
#[derive(Debug, Drop)]
pub struct Message {
    pub words: Sequence<i64>,
}

/// What an aggregate works out of a group of rows.
#[derive(Clone, Copy, Debug, PartialEq, Eq)]
pub enum MeasureKind {
    Sum,
    Min,
    Max,
    Count,
}

/// A measure of a column, which is a position from 0; that of a count is not looked at.
#[derive(Clone, Copy, Debug, PartialEq, Eq)]
pub struct Measure {
    pub kind: MeasureKind,
    pub column: u32,
}
