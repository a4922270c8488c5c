// Matrices of words.

use crate::sequence::Sequence;

/// A matrix: how many rows it has, and its columns, each of that length.
#[derive(Debug, Drop)]
pub struct Matrix {
    pub rows: u64,
    pub columns: Sequence<Sequence<i64>>,
}
