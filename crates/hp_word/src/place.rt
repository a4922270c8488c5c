// Places in a script, numbers of its nodes, the kinds of traps, and want of memory.

use std::alloc::{AllocError, AllocFailed};

/// A place in a script: line and column from 1, columns in bytes.
#[derive(Clone, Copy, Debug, PartialEq, Eq)]
pub struct Place {
    pub line: u32,
    pub col: u32,
}

/// The number of an expression in the order of the text, from 0.
#[derive(Clone, Copy, Debug, PartialEq, Eq)]
pub struct NodeId(pub u32);

/// Memory was refused. Merged with no other answer.
#[derive(Clone, Copy, Debug, PartialEq, Eq)]
pub struct NoMemory;

impl From<AllocError> for NoMemory {
    fn from(_error: AllocError) -> NoMemory {
        NoMemory
    }
}

impl<T: Drop> From<AllocFailed<T>> for NoMemory {
    fn from(_error: AllocFailed<T>) -> NoMemory {
        NoMemory
    }
}

/// Why an operation has no value.
#[derive(Clone, Copy, Debug, PartialEq, Eq)]
pub enum TrapKind {
    /// A divisor of 0, or the least number divided by -1.
    Divide,
    /// A position outside an array.
    Index,
    /// Two arrays of different length.
    Mismatch,
    /// A length below 0.
    BadLength,
    /// The least or greatest of no elements.
    Empty,
    /// More than 1,048,576 elements.
    TooLong,
}

/// A trap: where in the script, and why.
#[derive(Clone, Copy, Debug, PartialEq, Eq)]
pub struct Trap {
    pub at: Place,
    pub kind: TrapKind,
}
