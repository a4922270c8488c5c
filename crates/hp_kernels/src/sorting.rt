// Rows in their order.

ghost use Rattle.std.specs.Prelude.{◌≡◌, ◌<◌, ◌++◌, length, map, slice_index_or, pos, IfOk, OnOk};
ghost use Rattle.hp_word.specs.RowRules.{row_at, row_order, sorted_places, key_first, IsSortingOf};
ghost use Rattle.hp_word.specs.Tables.{row_count};

use hp_word::place::NoMemory;
use std::alloc::Global;
use std::cmp::Ordering;

/// A cell of a column by its row's place, and 0 where there is none.
fn cell_at(cells: &[i64], place: u64) -> i64
    ensures { result ≡ slice_index_or cells.now place (pos 0) }
{
    let place = place as usize;
    if place < cells.len() { cells[place] } else { 0 }
}

/// How two rows stand, by the columns from the first on.
#[tactic(auto, unfolding(hp_word::specs::RowRules::row_order))]
fn row_order(columns: &[&[i64]], p: u64, q: u64) -> Ordering
    ensures { result ≡ (let all = map (λ c. c.now) columns.now in row_order (row_at all p) (row_at all q)) }
{
    for column in columns {
        let next = cell_at(column, p).cmp(&cell_at(column, q));
        if next != Ordering::Equal {
            return next;
        }
    }
    Ordering::Equal
}

/// The places of so many rows in the order of the columns from the first on, equal rows by place.
pub fn sort_by_columns(alloc: Global, columns: &[&[i64]], rows: usize) -> Result<Vec<u64>, NoMemory>
    ensures places { IfOk result (λ made. made.items ≡ sorted_places (map (λ c. c.now) columns.now) rows) }
    ensures sorting { IfOk result (λ made. IsSortingOf (map (λ c. c.now) columns.now) rows made.items) }
{
    let mut places = Vec::new(alloc);
    for i in 0..rows {
        places.push(i as u64)?;
    }
    places.sort_by(|p, q| row_order(columns, *p, *q))?;
    Ok(places)
}

/// Adds columns behind others.
fn add_columns<'a>(made: &mut Vec<&'a [i64]>, columns: &'a [Vec<i64>]) -> Result<(), NoMemory>
    ensures { OnOk result (map (λ c. c.now) made.new.items ≡ map (λ c. c.now) made.old.items ++ map (λ c. c.items) columns.now) }
{
    for column in columns {
        made.push(column.as_slice())?;
    }
    Ok(())
}

/// The columns with the key as the first.
fn key_first(alloc: Global, columns: &[Vec<i64>], key: usize) -> Result<Vec<&[i64]>, NoMemory>
    requires { key < length columns.now }
    ensures { IfOk result (λ made. map (λ c. c.now) made.items ≡ key_first key (map (λ c. c.items) columns.now)) }
{
    let mut made = Vec::new(alloc);
    made.push(columns[key].as_slice())?;
    add_columns(&mut made, &columns[..key])?;
    add_columns(&mut made, &columns[key + 1..])?;
    Ok(made)
}

/// How many rows the columns have.
fn rows_of(columns: &[Vec<i64>]) -> usize
    ensures { result ≡ row_count (map (λ c. c.items) columns.now) }
{
    match columns.first() {
        Some(column) => column.len(),
        None => 0,
    }
}

/// The places of the rows in the order of the key, then of the other columns from the first on, then of the place.
pub fn sort_rows(alloc: Global, columns: &Vec<Vec<i64>>, key: u32) -> Result<Vec<u64>, NoMemory>
    requires { key < length columns.now.items }
    ensures places { let all = map (λ c. c.items) columns.now.items in IfOk result (λ made. made.items ≡ sorted_places (key_first key all) (row_count all)) }
    ensures sorting { let all = map (λ c. c.items) columns.now.items in IfOk result (λ made. IsSortingOf (key_first key all) (row_count all) made.items) }
{
    let columns = columns.as_slice();
    let by_key = key_first(alloc, columns, key as usize)?;
    sort_by_columns(alloc, by_key.as_slice(), rows_of(columns))
}
