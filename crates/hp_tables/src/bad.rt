// Why a text has no table, and its words.

ghost use Rattle.std.specs.Prelude.{◌≡◌, IfOk};
ghost use Rattle.hp_tables.specs.Texts.{bad_text};
ghost use Rattle.hp_tables.specs.declared.bad.TableError.TheVariants.{NoMemory};

use hp_word::name::Name;
use hp_word::place;
use std::alloc::{AllocError, AllocFailed, Global};

/// Why a text has no table.
#[derive(Drop)]
pub enum Bad {
    /// More than 67,108,864 bytes.
    TooBig,
    /// No record.
    NoHeader,
    /// A column that the first record does not name.
    MissingColumn(Name),
    /// A row, counted from 1, with a cell that is no number, and that cell's column.
    BadCell(u64, Name),
    /// A row, counted from 1, with another number of cells than the header.
    Ragged(u64),
    /// More than 1,048,576 rows.
    TooManyRows,
}

/// Why there is no table.
#[derive(Drop)]
pub enum TableError {
    /// The text has none.
    Bad(Bad),
    /// Memory was refused.
    NoMemory,
}

impl From<place::NoMemory> for TableError {
    ghost from_gives = { λ _ e. e ≡ NoMemory };

    fn from(_error: place::NoMemory) -> TableError {
        TableError::NoMemory
    }
}

impl From<AllocError> for TableError {
    ghost from_gives = { λ _ e. e ≡ NoMemory };

    fn from(_error: AllocError) -> TableError {
        TableError::NoMemory
    }
}

impl<T: Drop> From<AllocFailed<T>> for TableError {
    ghost from_gives = { λ _ e. e ≡ NoMemory };

    fn from(_error: AllocFailed<T>) -> TableError {
        TableError::NoMemory
    }
}

/// The words of a defect, with no newline.
pub fn bad_text(alloc: Global, bad: &Bad) -> Result<Vec<u8>, place::NoMemory>
    ensures { IfOk result (λ text. text.items ≡ bad_text bad.now) }
{
    let (start, end) = match bad {
        Bad::TooBig => (format!(in alloc; "too big")?, None),
        Bad::NoHeader => (format!(in alloc; "no header")?, None),
        Bad::MissingColumn(name) => (format!(in alloc; "no column ")?, Some(name)),
        Bad::BadCell(row, name) => (format!(in alloc; "row {row}: bad cell in ")?, Some(name)),
        Bad::Ragged(row) => (format!(in alloc; "row {row}: ragged")?, None),
        Bad::TooManyRows => (format!(in alloc; "too many rows")?, None),
    };
    let mut text = start.into_bytes();
    if let Some(name) = end {
        text.extend_from_slice(name.bytes.as_slice())?;
    }
    Ok(text)
}
