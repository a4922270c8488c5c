// The columns of frames.

ghost use Rattle.std.specs.Prelude.{◌≡◌, ◌==◌, find, length, IfOk};
ghost use Rattle.std.specs.List.{list_all};
ghost use Rattle.std.specs.Option.{option_copied};
ghost use Rattle.hp_meaning.specs.FrameRules.{is_named, column_of, rows_of};
ghost use Rattle.hp_meaning.specs.HeldValues.{Finds};

use crate::seen::Stop;
use crate::value::Column;
pub use hp_word::name::copied_name;
use hp_word::place::NoMemory;
use hp_word::sequence::Sequence;
use std::alloc::Global;

/// Whether a column has this name.
pub fn is_named(name: &[u8], column: &Column) -> bool
    ensures { result ≡ is_named name.now column.now }
{
    column.name.bytes.as_slice() == name
}

/// The first column with this name.
fn column_named<'a>(name: &[u8], columns: &'a [Column]) -> Option<&'a Column>
    ensures { option_copied result ≡ find (is_named name.now) columns.now }
{
    columns.iter().find(|column| is_named(name, *column))
}

/// The cells of the first column with this name.
pub fn column_of<'a>(name: &[u8], columns: &'a [Column]) -> Result<&'a Sequence<i64>, Stop>
    ensures { Finds (λ cells. cells.now) (column_of name.now columns.now) result }
{
    match column_named(name, columns) {
        Some(column) => Ok(&column.cells),
        None => Err(Stop::Wrong),
    }
}

/// How many rows a frame has.
pub fn rows_of(columns: &[Column]) -> usize
    ensures { result ≡ rows_of columns.now }
{
    match columns.first() {
        Some(column) => column.cells.len(),
        None => 0,
    }
}

/// Whether the columns have one length.
pub fn are_level(columns: &[Column]) -> bool
    ensures { result ≡ list_all (λ c. length c.cells == rows_of columns.now) columns.now }
{
    let rows = rows_of(columns);
    columns.iter().all(|column| column.cells.len() == rows)
}

/// A copy of columns.
pub fn copied_columns(alloc: Global, columns: &[Column]) -> Result<Sequence<Column>, NoMemory>
    ensures { IfOk result (λ made. made ≡ columns.now) }
{
    let mut made = Sequence::new(alloc);
    for column in columns {
        made.push(Column {
            name: copied_name(alloc, &column.name)?,
            cells: Sequence::from_slice(alloc, column.cells.as_slice())?,
        })?;
    }
    Ok(made)
}
