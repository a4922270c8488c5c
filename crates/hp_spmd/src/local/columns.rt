// Columns that instructions read, as slices, and where the columns go that they make.

ghost use Rattle.std.specs.Prelude.{◌≡◌, ◌++◌, ◌+◌, ◌<◌, ◌^◌, ◌-◌, [], map, remove, slice_index_or, IfOk, OnOk, OnErr};
ghost use Rattle.hp_word.specs.LoopRules.{word_at};
ghost use Rattle.hp_word.specs.RowRules.{column_at};
ghost use Rattle.hp_spmd.specs.Arrays.{cells_at};
ghost use Rattle.hp_spmd.specs.Frames.{columns_to};
ghost use Rattle.hp_spmd.specs.Matrices.{whole_piece};
ghost use Rattle.hp_spmd.specs.RowParts.{with_ordered};
ghost use Rattle.hp_spmd.specs.Store.{data_of, with_data};

use crate::instr::Target;
use crate::local::arrays::cells_at;
use crate::local::exchange::loose_at;
use crate::local::pieces::whole_piece;
use crate::local::setting::put_all;
use crate::store::{Piece, Store};
use hp_word::order::{Order, RowPlace};
use hp_word::place::NoMemory;
use hp_word::sequence::Sequence;
use std::alloc::Global;

// ---- columns that are read

/// The own cells of these arrays.
pub fn array_columns<'a>(
    alloc: Global,
    arrays: &'a Sequence<Piece>,
    from: &[u32],
) -> Result<Vec<&'a [i64]>, NoMemory>
    ensures { IfOk result (λ made. map (λ c. c.now) made.items ≡ map (cells_at arrays.now) from.now) }
{
    let mut made = Vec::with_capacity(alloc, from.len())?;
    for at in from {
        made.push(cells_at(arrays, *at))?;
    }
    Ok(made)
}

/// These loose columns.
pub fn loose_columns<'a>(
    alloc: Global,
    loose: &'a Sequence<Sequence<i64>>,
    from: &[u32],
) -> Result<Vec<&'a [i64]>, NoMemory>
    ensures { IfOk result (λ made. map (λ c. c.now) made.items ≡ map (λ k. slice_index_or loose.now k []) from.now) }
{
    let mut made = Vec::with_capacity(alloc, from.len())?;
    for at in from {
        made.push(loose_at(loose, *at))?;
    }
    Ok(made)
}

/// The column at a position; no cells where there is none.
#[tactic(auto, using(crate::proofs::RowNext::column_there, crate::proofs::RowNext::column_none))]
pub fn column_of<'a>(columns: &[&'a [i64]], at: u32) -> &'a [i64]
    ensures { result.now ≡ column_at at (map (λ c. c.now) columns.now) }
{
    let at = at as usize;
    if at < columns.len() { columns[at] } else { &[] }
}

/// Adds all columns but the one at a position.
#[tactic(auto, using(crate::proofs::RowNext::others_are))]
pub fn add_others<'a>(
    made: &mut Vec<&'a [i64]>,
    columns: &[&'a [i64]],
    at: u32,
) -> Result<(), NoMemory>
    ensures { OnOk result (map (λ c. c.now) made.new.items ≡ map (λ c. c.now) made.old.items ++ remove (map (λ c. c.now) columns.now) at) }
{
    for (k, column) in columns.iter().enumerate() {
        if k != at as usize {
            made.push(*column)?;
        }
    }
    Ok(())
}

// ---- columns that are made

/// Vectors that are whole on each rank.
pub fn whole_pieces(alloc: Global, columns: Vec<Sequence<i64>>) -> Result<Vec<Piece>, NoMemory>
    ensures { IfOk result (λ made. made.items ≡ map (whole_piece 1) columns.items) }
{
    let mut made = Vec::with_capacity(alloc, columns.len())?;
    for cells in columns {
        made.push(whole_piece(alloc, 1, cells)?)?;
    }
    Ok(made)
}

/// Puts columns where they go.
pub fn put_columns(
    store: &mut Store,
    to: &Target,
    columns: Vec<Sequence<i64>>,
) -> Result<(), NoMemory>
    ensures ok { OnOk result (store.new ≡ with_data (columns_to to.now columns.items (data_of store.old)) store.old) }
    ensures err { OnErr result (store.new ≡ store.old) }
{
    match to {
        Target::Whole(arrays) => {
            let made = whole_pieces(store.words.alloc(), columns)?;
            put_all(&mut store.arrays, arrays.as_slice(), made);
        }
        Target::Loose(loose) => put_all(&mut store.loose, loose.as_slice(), columns),
    }
    Ok(())
}

/// Rows that a join or aggregate has made: their columns, and their places in the whole.
#[derive(Drop)]
pub struct Ordered {
    pub columns: Vec<Sequence<i64>>,
    pub places: Sequence<RowPlace>,
}

/// Puts the columns of one more join or aggregate where they go, and logs the order of its rows.
pub fn put_ordered(store: &mut Store, to: &Target, made: Ordered) -> Result<(), NoMemory>
    requires { store.old.executed < 2 ^ 64 - 1 }
    ensures ok { OnOk result (store.new ≡ with_data (with_ordered to.now made (data_of store.old)) store.old) }
    ensures err { OnErr result (store.new ≡ store.old) }
{
    let number = store.executed + 1;
    let Ordered { columns, places } = made;
    match to {
        Target::Whole(arrays) => {
            let made = whole_pieces(store.words.alloc(), columns)?;
            put_all(&mut store.arrays, arrays.as_slice(), made);
        }
        Target::Loose(loose) => {
            store.log.list.push(Order { number, places })?;
            put_all(&mut store.loose, loose.as_slice(), columns);
        }
    }
    store.executed = number;
    Ok(())
}
