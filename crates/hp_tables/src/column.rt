// The columns that are wanted, while rows are read into them.

ghost use Rattle.std.specs.Prelude.{◌≡◌, None, map, IfOk, IfErr, OnOk};
ghost use Rattle.csv.specs.Records.{fields_of};
ghost use Rattle.hp_tables.specs.Contents.{first_of, missing, number_at, place_of};
ghost use Rattle.hp_tables.specs.Running.{TellsDefect, bad_in, grown, new_column};

use crate::bad::{Bad, TableError};
use crate::cell::number_of;
use csv::ByteRecord;
use hp_word::name::{Name, copied_name};
use hp_word::place::NoMemory;
use hp_word::sequence::Sequence;
use std::alloc::Global;

/// A column that is wanted: its name, its place in each row, and its cells so far.
#[derive(Drop)]
pub struct Column {
    pub name: Name,
    pub place: usize,
    pub cells: Sequence<i64>,
}

// A copy of a name.
fn copy_of(name: &Name) -> Result<Name, NoMemory>
    ensures { IfOk result (λ copy. copy ≡ name.now) }
{
    copied_name(name.bytes.alloc(), name)
}

// The place of a name in a header, or how many fields the header has.
#[tactic(auto, using(crate::proofs::ListLemmas::places))]
fn place_of(header: &ByteRecord, name: &Name) -> usize
    ensures { result ≡ place_of (fields_of header.now) name.now }
{
    for place in 0..header.len() {
        if let Some(field) = header.get(place) {
            if field == name.bytes.as_slice() {
                return place;
            }
        }
    }
    header.len()
}

/// For each name its column, with no cell yet, or the first name that is no field of the header.
#[tactic(auto, using(crate::proofs::ListLemmas::firsts), unfolding(crate::specs::Running::new_column))]
pub fn find_columns(
    alloc: Global,
    header: &ByteRecord,
    names: &[Name],
) -> Result<Vec<Column>, TableError>
    ensures columns { IfOk result (λ columns. columns.items ≡ map (new_column (fields_of header.now)) names.now) }
    ensures all { OnOk result (first_of (map (missing (fields_of header.now)) names.now) ≡ None) }
    ensures bad { IfErr result (TellsDefect (first_of (map (missing (fields_of header.now)) names.now))) }
{
    let mut columns = Vec::new(alloc);
    for name in names {
        let place = place_of(header, name);
        let name = copy_of(name)?;
        if place == header.len() {
            return Err(TableError::Bad(Bad::MissingColumn(name)));
        }
        let cells = Sequence::new(alloc);
        columns.push(Column { name, place, cells })?;
    }
    Ok(columns)
}

// The number in the cell of a row at a place.
#[tactic(auto, using(crate::proofs::ListLemmas::field_get))]
fn number_at(row: &ByteRecord, place: usize) -> Option<i64>
    ensures { result ≡ number_at place (fields_of row.now) }
{
    number_of(row.get(place)?)
}

/// Reads the row of that number into the columns, or tells the first cell that is no number.
#[tactic(auto, using(crate::proofs::ListLemmas::firsts), unfolding(crate::specs::Running::grown, crate::specs::Running::bad_in))]
pub fn read_cells(columns: &mut [Column], number: u64, row: &ByteRecord) -> Result<(), TableError>
    ensures cells { OnOk result (columns.new ≡ map (grown (fields_of row.now)) columns.old) }
    ensures good { OnOk result (first_of (map (bad_in number (fields_of row.now)) columns.old) ≡ None) }
    ensures bad { IfErr result (TellsDefect (first_of (map (bad_in number (fields_of row.now)) columns.old))) }
{
    for i in 0..columns.len() {
        let column = &mut columns[i];
        match number_at(row, column.place) {
            Some(value) => column.cells.push(value)?,
            None => return Err(TableError::Bad(Bad::BadCell(number, copy_of(&column.name)?))),
        }
    }
    Ok(())
}

/// The cells of the columns.
pub fn cells_of(alloc: Global, columns: Vec<Column>) -> Result<Sequence<Sequence<i64>>, NoMemory>
    ensures { IfOk result (λ cells. cells ≡ map (λ column. column.cells) columns.items) }
{
    let mut cells = Vec::with_capacity(alloc, columns.len())?;
    for column in columns {
        cells.push(column.cells)?;
    }
    Ok(Sequence::from_vec(cells))
}
