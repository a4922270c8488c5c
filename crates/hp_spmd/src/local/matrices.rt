// What Stack and Row do to a store. A piece with more than one row holds the rank's own columns.

ghost use Rattle.std.specs.Prelude.{◌≡◌, ◌++◌, ◌+◌, ◌*◌, ◌<◌, ◌^◌, false, drop, flat_map, length, map, nat_le, take, IfOk, OnErr, OnOk};
ghost use Rattle.hp_word.specs.Lengths.{longest};
ghost use Rattle.hp_word.specs.LoopRules.{word_at};
ghost use Rattle.hp_word.specs.MatrixRules.{matrix, matrix_row, rows_of};
ghost use Rattle.hp_word.specs.RowRules.{row_at};
ghost use Rattle.hp_spmd.specs.Arrays.{cells_at};
ghost use Rattle.hp_spmd.specs.Matrices.{column_count, columns_of, interleaved, own_matrix, row_data, stack_data, stacked, stacked_size};
ghost use Rattle.hp_spmd.specs.Next.{Tells, lifted};
ghost use Rattle.hp_spmd.specs.Store.{data_of, piece_at};

use crate::local::Local;
use crate::local::arrays::{cells_at, cuts_at, rows_at};
use crate::local::check::length_at;
use crate::local::columns::array_columns;
use crate::local::pieces::{column_count, whole_piece};
use crate::local::words::{cell_in, put, word_at};
use crate::store::{Piece, Store};
use hp_word::lengths::LONGEST;
use hp_word::place::{NoMemory, Place, Trap, TrapKind};
use hp_word::sequence::Sequence;
use std::alloc::Global;

// ---- columns and rows

/// A column, by its number from 0, of cells with so many rows.
#[tactic(auto, using(crate::proofs::MatrixNext::column_within))]
fn column(cells: &[i64], rows: u64, number: u64) -> &[i64]
    requires { number < column_count rows cells.now }
    ensures { result.now ≡ take rows (drop (number * rows) cells.now) }
{
    let from = number * rows;
    &cells[from as usize..(from + rows) as usize]
}

/// The columns of cells with so many rows.
fn columns_of<'a>(alloc: Global, rows: u64, cells: &'a [i64]) -> Result<Vec<&'a [i64]>, NoMemory>
    ensures { IfOk result (λ made. map (λ c. c.now) made.items ≡ columns_of rows (column_count rows cells.now) cells.now) }
{
    let count = column_count(rows, cells);
    let mut made = Vec::with_capacity(alloc, count as usize)?;
    for number in 0..count {
        made.push(column(cells, rows, number))?;
    }
    Ok(made)
}

/// A rank's own columns of a matrix.
pub fn own_columns<'a>(
    alloc: Global,
    arrays: &'a Sequence<Piece>,
    at: u32,
) -> Result<Vec<&'a [i64]>, NoMemory>
    ensures { IfOk result (λ made. map (λ c. c.now) made.items ≡ (own_matrix (piece_at arrays.now at)).columns) }
{
    columns_of(alloc, rows_at(arrays, at), cells_at(arrays, at))
}

/// The cells of a row of columns, by its place from 0.
fn row_at(alloc: Global, columns: &[&[i64]], place: u64) -> Result<Sequence<i64>, NoMemory>
    ensures { IfOk result (λ row. row ≡ row_at (map (λ c. c.now) columns.now) place) }
{
    let mut row = Vec::with_capacity(alloc, columns.len())?;
    for column in columns {
        row.push(cell_in(column, place as usize))?;
    }
    Ok(Sequence::from_vec(row))
}

/// The rows of columns that have so many.
#[tactic(auto, unfolding(hp_word::specs::MatrixRules::rows_of))]
fn rows_of(alloc: Global, rows: u64, columns: &[&[i64]]) -> Result<Vec<Sequence<i64>>, NoMemory>
    ensures { IfOk result (λ made. made.items ≡ rows_of (matrix rows (map (λ c. c.now) columns.now))) }
{
    let mut made = Vec::new(alloc);
    for place in 0..rows {
        made.push(row_at(alloc, columns, place)?)?;
    }
    Ok(made)
}

/// The rows of a rank's own columns of a matrix.
pub fn own_rows(
    alloc: Global,
    arrays: &Sequence<Piece>,
    at: u32,
) -> Result<Vec<Sequence<i64>>, NoMemory>
    ensures { IfOk result (λ made. made.items ≡ rows_of (own_matrix (piece_at arrays.now at))) }
{
    let columns = own_columns(alloc, arrays, at)?;
    rows_of(alloc, rows_at(arrays, at), columns.as_slice())
}

/// Whether a matrix of so many rows and columns has at most as many cells as an array may have.
#[tactic(auto, using(crate::proofs::MatrixNext::size_fits, crate::proofs::MatrixNext::size_breaks))]
pub fn fits(rows: u64, columns: u64) -> bool
    ensures { result ≡ nat_le (rows * columns) longest }
{
    match rows.checked_mul(columns) {
        Some(size) => size <= LONGEST,
        None => false,
    }
}

// ---- Row

/// The own part of the row of a matrix at a position from 1; `Index` where there is none.
#[tactic(auto, unfolding(hp_word::specs::MatrixRules::matrix_row))]
fn matrix_row(
    alloc: Global,
    at: Place,
    arrays: &Sequence<Piece>,
    array: u32,
    position: i64,
) -> Result<Result<Sequence<i64>, Trap>, NoMemory>
    ensures { IfOk result (λ made. made ≡ matrix_row at (own_matrix (piece_at arrays.now array)) position) }
{
    let kind = TrapKind::Index;
    if position < 1 {
        return Ok(Err(Trap { at, kind }));
    }
    let place = (position - 1) as u64;
    if place >= rows_at(arrays, array) {
        return Ok(Err(Trap { at, kind }));
    }
    let columns = own_columns(alloc, arrays, array)?;
    Ok(Ok(row_at(alloc, columns.as_slice(), place)?))
}

/// Makes an array of the row of a matrix at the position that the word `index` says; traps at `at`.
#[tactic(auto, unfolding(crate::specs::Matrices::row_data))]
pub fn do_row(
    store: &mut Store,
    to: u32,
    matrix: u32,
    index: u32,
    at: Place,
) -> Result<Local, NoMemory>
    requires { store.old.position + 1 < 2 ^ 32 }
    ensures told { IfOk result (λ l. Tells (lifted (row_data to matrix index at (data_of store.old)) store.old) l store.old store.new) }
    ensures err { OnErr result (store.new ≡ store.old) }
    ensures number { store.new.number ≡ store.old.number }
    ensures ranks { store.new.ranks ≡ store.old.ranks }
{
    let alloc = store.words.alloc();
    let position = word_at(&store.words, index);
    match matrix_row(alloc, at, &store.arrays, matrix, position)? {
        Err(trap) => Ok(Local::Trapped(trap.at, trap.kind)),
        Ok(cells) => {
            let cuts = Sequence::from_slice(alloc, cuts_at(&store.arrays, matrix))?;
            let piece = Piece {
                rows: 1,
                cuts,
                cells,
            };
            put(&mut store.arrays, to, piece);
            store.position += 1;
            Ok(Local::Moved)
        }
    }
}

// ---- Stack

/// Adds a cell of each list, 0 where it has none.
fn add_cells(made: &mut Vec<i64>, lists: &[&[i64]], place: usize) -> Result<(), NoMemory>
    ensures { OnOk result (made.new.items ≡ made.old.items ++ map (λ cells. word_at cells place) (map (λ c. c.now) lists.now)) }
{
    for cells in lists {
        made.push(cell_in(cells, place))?;
    }
    Ok(())
}

/// At each of so many places the cell of each list.
fn interleaved(alloc: Global, places: u64, lists: &[&[i64]]) -> Result<Sequence<i64>, NoMemory>
    ensures { IfOk result (λ made. made ≡ interleaved places (map (λ c. c.now) lists.now)) }
{
    let mut made = Vec::new(alloc);
    for place in 0..places {
        add_cells(&mut made, lists, place as usize)?;
    }
    Ok(Sequence::from_vec(made))
}

/// Arrays as the rows of a matrix, which is cut as the first.
#[tactic(auto, using(crate::proofs::MatrixNext::none_stacked))]
fn stacked_rows(alloc: Global, arrays: &Sequence<Piece>, from: &[u32]) -> Result<Piece, NoMemory>
    ensures { IfOk result (λ piece. piece ≡ stacked false (map (piece_at arrays.now) from.now)) }
{
    let [first, ..] = from else {
        return Ok(Piece {
            rows: 0,
            cuts: Sequence::new(alloc),
            cells: Sequence::new(alloc),
        });
    };
    let lists = array_columns(alloc, arrays, from)?;
    let places = column_count(rows_at(arrays, *first), cells_at(arrays, *first));
    Ok(Piece {
        rows: from.len() as u64,
        cuts: Sequence::from_slice(alloc, cuts_at(arrays, *first))?,
        cells: interleaved(alloc, places, lists.as_slice())?,
    })
}

/// The cells of arrays, one array behind the other.
fn end_to_end(
    alloc: Global,
    arrays: &Sequence<Piece>,
    from: &[u32],
) -> Result<Sequence<i64>, NoMemory>
    ensures { IfOk result (λ made. made ≡ flat_map (cells_at arrays.now) from.now) }
{
    let mut made = Vec::new(alloc);
    for at in from {
        made.extend_from_slice(cells_at(arrays, *at))?;
    }
    Ok(Sequence::from_vec(made))
}

/// Whether arrays have together at most as many own cells as an array may have.
fn ends_fit(arrays: &Sequence<Piece>, from: &[u32]) -> bool
    ensures { result ≡ nat_le (length (flat_map (cells_at arrays.now) from.now)) longest }
{
    let mut left = LONGEST;
    for at in from {
        let count = cells_at(arrays, *at).len() as u64;
        if count > left {
            return false;
        }
        left -= count;
    }
    true
}

/// Whether what Stack makes has at most as many cells as an array may have.
fn stack_fits(arrays: &Sequence<Piece>, from: &[u32], flat: bool) -> bool
    ensures { result ≡ nat_le (stacked_size flat (map (piece_at arrays.now) from.now)) longest }
{
    if flat {
        return ends_fit(arrays, from);
    }
    match from {
        [] => true,
        [first, ..] => fits(from.len() as u64, length_at(arrays, *first)),
    }
}

/// What Stack makes of arrays.
fn stacked(
    alloc: Global,
    arrays: &Sequence<Piece>,
    from: &[u32],
    flat: bool,
) -> Result<Piece, NoMemory>
    ensures { IfOk result (λ piece. piece ≡ stacked flat (map (piece_at arrays.now) from.now)) }
{
    if flat {
        return whole_piece(alloc, 1, end_to_end(alloc, arrays, from)?);
    }
    stacked_rows(alloc, arrays, from)
}

/// Makes a matrix of which arrays are the rows, or where `flat` an array of others end to end; `TooLong` at `at`.
#[tactic(auto, unfolding(crate::specs::Matrices::stack_data))]
pub fn do_stack(
    store: &mut Store,
    to: u32,
    from: &Sequence<u32>,
    flat: bool,
    at: Place,
) -> Result<Local, NoMemory>
    requires { store.old.position + 1 < 2 ^ 32 }
    ensures told { IfOk result (λ l. Tells (lifted (stack_data to from.now flat at (data_of store.old)) store.old) l store.old store.new) }
    ensures err { OnErr result (store.new ≡ store.old) }
    ensures number { store.new.number ≡ store.old.number }
    ensures ranks { store.new.ranks ≡ store.old.ranks }
{
    let from = from.as_slice();
    if !stack_fits(&store.arrays, from, flat) {
        return Ok(Local::Trapped(at, TrapKind::TooLong));
    }
    let alloc = store.words.alloc();
    let piece = stacked(alloc, &store.arrays, from, flat)?;
    put(&mut store.arrays, to, piece);
    store.position += 1;
    Ok(Local::Moved)
}
