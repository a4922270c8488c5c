// Reading the columns of a table.

ghost use Rattle.std.specs.Prelude.{◌≡◌, ◌≤◌, Ok, None, map, IfOk, IfErr, OnOk, length};
ghost use Rattle.std.specs.List.{enumerate_from};
ghost use Rattle.csv.specs.Records.{fields_of};
ghost use Rattle.hp_word.specs.Lengths.{longest};
ghost use Rattle.hp_tables.specs.Contents.{Tells, answer_of, first_of, table_of};
ghost use Rattle.hp_tables.specs.Running.{TellsDefect, cells_after, grown, row_bad};

use crate::bad::{Bad, TableError};
use crate::column::{Column, cells_of, find_columns, read_cells};
use crate::records::Records;
use csv::ByteRecord;
use hp_word::lengths::LONGEST;
use hp_word::name::Name;
use hp_word::sequence::Sequence;
use hp_word::table::Table;
use std::alloc::Global;

/// The most bytes that a text has.
pub const MAX_BYTES: usize = 67_108_864;

/// The columns of these names, in this order, of the table that a text has, or why it has none.
#[tactic(auto, using(crate::proofs::ContentLemmas::answers))]
pub fn columns(alloc: Global, text: &[u8], names: &[Name]) -> Result<Table, TableError>
    ensures table { IfOk result (λ table. answer_of names.now text.now ≡ Ok table.columns) }
    ensures wide { IfOk result (λ table. length table.columns ≡ length names.now) }
    ensures bad { IfErr result (Tells (answer_of names.now text.now)) }
{
    if text.len() > MAX_BYTES {
        return Err(TableError::Bad(Bad::TooBig));
    }
    let mut records = Records::new(alloc, text);
    let mut row = ByteRecord::new(alloc);
    table(alloc, &mut records, &mut row, names)
}

// The table of all records that are left, or why there is none. Each record passes through `row`.
fn table(
    alloc: Global,
    records: &mut Records,
    row: &mut ByteRecord,
    names: &[Name],
) -> Result<Table, TableError>
    ensures table { IfOk result (λ table. table_of names.now records.old ≡ Ok table.columns) }
    ensures wide { IfOk result (λ table. length table.columns ≡ length names.now) }
    ensures bad { IfErr result (Tells (table_of names.now records.old)) }
{
    if !records.next(row)? {
        return Err(TableError::Bad(Bad::NoHeader));
    }
    let width = row.len();
    let columns = find_columns(alloc, row, names)?;
    let columns = filled(alloc, records, row, width, columns)?;
    Ok(Table { columns })
}

// The cells of the columns after all rows that are left, or the first defect of a row.
#[tactic(auto, using(crate::proofs::ContentLemmas::kept_whole))]
fn filled(
    alloc: Global,
    records: &mut Records,
    row: &mut ByteRecord,
    width: usize,
    columns: Vec<Column>,
) -> Result<Sequence<Sequence<i64>>, TableError>
    ensures cells { IfOk result (λ cells. cells ≡ map (cells_after records.old) columns.items) }
    ensures good { OnOk result (first_of (map (row_bad width columns.items) (enumerate_from 1 records.old)) ≡ None) }
    ensures bad { IfErr result (TellsDefect (first_of (map (row_bad width columns.items) (enumerate_from 1 records.old)))) }
{
    let mut columns = columns;
    read_rows(records, row, width, columns.as_mut_slice())?;
    Ok(cells_of(alloc, columns)?)
}

// Reads the rows that are left into the columns, or tells the first defect. Each row passes through `row`.
#[tactic(auto, using(crate::proofs::ColumnLemmas::rows_read))]
fn read_rows(
    records: &mut Records,
    row: &mut ByteRecord,
    width: usize,
    columns: &mut [Column],
) -> Result<(), TableError>
    ensures cells { OnOk result (map (λ column. column.cells) columns.new ≡ map (cells_after records.old) columns.old) }
    ensures good { OnOk result (first_of (map (row_bad width columns.old) (enumerate_from 1 records.old)) ≡ None) }
    ensures bad { IfErr result (TellsDefect (first_of (map (row_bad width columns.old) (enumerate_from 1 records.old)))) }
{
    let mut number = 1u64;
    while records.next(row)? {
        read_row(columns, width, number, row)?;
        number += 1;
    }
    Ok(())
}

// Reads the row of that number into the columns, or tells its first defect.
#[tactic(auto, unfolding(crate::specs::Running::row_bad))]
fn read_row(
    columns: &mut [Column],
    width: usize,
    number: u64,
    row: &ByteRecord,
) -> Result<(), TableError>
    ensures cells { OnOk result (columns.new ≡ map (grown (fields_of row.now)) columns.old) }
    ensures good { OnOk result (row_bad width columns.old (number, fields_of row.now) ≡ None) }
    ensures bad { IfErr result (TellsDefect (row_bad width columns.old (number, fields_of row.now))) }
    ensures counted { OnOk result (number ≤ longest) }
{
    if number > LONGEST {
        return Err(TableError::Bad(Bad::TooManyRows));
    }
    if row.len() != width {
        return Err(TableError::Bad(Bad::Ragged(number)));
    }
    read_cells(columns, number, row)
}
