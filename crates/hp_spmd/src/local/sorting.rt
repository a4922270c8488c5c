// What Sort does to a store.

ghost use Rattle.std.specs.Prelude.{◌≡◌, ◌+◌, ◌<◌, ◌^◌, map, IfOk, OnErr};
ghost use Rattle.hp_word.specs.LoopRules.{word_at};
ghost use Rattle.hp_word.specs.RowRules.{key_first, sorted_places};
ghost use Rattle.hp_word.specs.Tables.{row_count};
ghost use Rattle.hp_spmd.specs.Arrays.{cells_at};
ghost use Rattle.hp_spmd.specs.Frames.{sort_data};
ghost use Rattle.hp_spmd.specs.Matrices.{whole_piece};
ghost use Rattle.hp_spmd.specs.Next.{Tells, lifted};
ghost use Rattle.hp_spmd.specs.Store.{data_of};

use crate::local::Local;
use crate::local::columns::{add_others, array_columns, column_of, whole_pieces};
use crate::local::setting::put_all;
use crate::local::words::cell_in;
use crate::store::{Piece, Store};
use hp_kernels::sorting::sort_by_columns;
use hp_word::place::NoMemory;
use hp_word::sequence::Sequence;
use std::alloc::Global;

/// The columns with the key as the first.
fn key_first<'a>(alloc: Global, columns: &[&'a [i64]], key: u32) -> Result<Vec<&'a [i64]>, NoMemory>
    ensures { IfOk result (λ made. map (λ c. c.now) made.items ≡ key_first key (map (λ c. c.now) columns.now)) }
{
    let mut made = Vec::with_capacity(alloc, columns.len())?;
    made.push(column_of(columns, key))?;
    add_others(&mut made, columns, key)?;
    Ok(made)
}

/// How many rows the columns have.
fn rows_of(columns: &[&[i64]]) -> usize
    ensures { result ≡ row_count (map (λ c. c.now) columns.now) }
{
    match columns.first() {
        Some(column) => column.len(),
        None => 0,
    }
}

/// The cells of a column at these places from 0.
pub fn cells_at_places(
    alloc: Global,
    places: &[u64],
    cells: &[i64],
) -> Result<Sequence<i64>, NoMemory>
    ensures { IfOk result (λ made. made ≡ map (word_at cells.now) places.now) }
{
    let mut made = Vec::with_capacity(alloc, places.len())?;
    for place in places {
        made.push(cell_in(cells, *place as usize))?;
    }
    Ok(Sequence::from_vec(made))
}

/// The rows of columns in the order of the key and then of the other columns.
fn sorted_columns(
    alloc: Global,
    columns: &[&[i64]],
    key: u32,
) -> Result<Vec<Sequence<i64>>, NoMemory>
    ensures { let all = map (λ c. c.now) columns.now in IfOk result (λ made. made.items ≡ map (λ cells. map (word_at cells) (sorted_places (key_first key all) (row_count all))) all) }
{
    let by_key = key_first(alloc, columns, key)?;
    let places = sort_by_columns(alloc, by_key.as_slice(), rows_of(columns))?;
    let mut made = Vec::with_capacity(alloc, columns.len())?;
    for column in columns {
        made.push(cells_at_places(alloc, places.as_slice(), column)?)?;
    }
    Ok(made)
}

/// The same of the columns in these arrays, each as a whole vector.
fn sorted_pieces(
    alloc: Global,
    arrays: &Sequence<Piece>,
    from: &[u32],
    key: u32,
) -> Result<Vec<Piece>, NoMemory>
    ensures { let all = map (cells_at arrays.now) from.now in IfOk result (λ made. made.items ≡ map (λ cells. whole_piece 1 (map (word_at cells) (sorted_places (key_first key all) (row_count all)))) all) }
{
    let columns = array_columns(alloc, arrays, from)?;
    whole_pieces(alloc, sorted_columns(alloc, columns.as_slice(), key)?)
}

/// Makes arrays of the rows of others, sorted by the key and then by the other columns in order.
#[tactic(auto, unfolding(crate::specs::Frames::sort_data))]
pub fn do_sort(
    store: &mut Store,
    to: &Sequence<u32>,
    from: &Sequence<u32>,
    key: u32,
) -> Result<Local, NoMemory>
    requires { store.old.position + 1 < 2 ^ 32 }
    ensures told { IfOk result (λ l. Tells (lifted (sort_data to.now from.now key (data_of store.old)) store.old) l store.old store.new) }
    ensures err { OnErr result (store.new ≡ store.old) }
    ensures number { store.new.number ≡ store.old.number }
    ensures ranks { store.new.ranks ≡ store.old.ranks }
{
    let alloc = store.words.alloc();
    let made = sorted_pieces(alloc, &store.arrays, from.as_slice(), key)?;
    put_all(&mut store.arrays, to.as_slice(), made);
    store.position += 1;
    Ok(Local::Moved)
}
