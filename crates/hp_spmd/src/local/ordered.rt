// The rows that joins and aggregates read: their columns, and their places in the whole.

ghost use Rattle.std.specs.Prelude.{◌≡◌, ◌+◌, [], map, min, slice_index_or, IfOk};
ghost use Rattle.hp_word.specs.ListRules.{at_least_zero};
ghost use Rattle.hp_word.specs.RowRules.{cell_of, row_place};
ghost use Rattle.hp_spmd.specs.Frames.{rows_read};
ghost use Rattle.hp_spmd.specs.RowParts.{columns_read};
ghost use Rattle.hp_spmd.specs.Scalars.{greatest_count};
ghost use Rattle.hp_spmd.specs.Store.{data_of};

use crate::dist::Dist;
use crate::instr::Rows;
use crate::local::columns::{array_columns, loose_columns};
use crate::local::exchange::loose_at;
use crate::local::places::{before_first, place_in_whole};
use crate::local::words::cell_in;
use crate::store::Store;
use hp_word::order::RowPlace;
use hp_word::place::NoMemory;
use hp_word::sequence::Sequence;
use std::alloc::Global;

/// The columns of the rows.
pub fn columns_read<'a>(
    alloc: Global,
    store: &'a Store,
    rows: &Rows,
) -> Result<Vec<&'a [i64]>, NoMemory>
    ensures { IfOk result (λ made. map (λ c. c.now) made.items ≡ columns_read rows.now (data_of store.now)) }
{
    match rows {
        Rows::Own(arrays) => array_columns(alloc, &store.arrays, arrays.as_slice()),
        Rows::Got(columns) => match columns.as_slice() {
            [] => Ok(Vec::new(alloc)),
            [_places, rest @ ..] => loose_columns(alloc, &store.loose, rest),
        },
    }
}

/// The place from 1 in the whole of the own row with this place from 0, behind so many rows of others.
fn own_place(before: u64, row: u64) -> u64
    ensures { result ≡ min (before + (row + 1)) greatest_count }
{
    place_in_whole(before.saturating_add(row), 1)
}

/// The place that a column lists for the row with this place from 0.
#[tactic(auto, using(crate::proofs::PlaceNext::cell_later))]
fn listed_place(places: &[i64], row: u64) -> u64
    ensures { result ≡ at_least_zero (cell_of places.now (row + 1)) }
{
    let place = cell_in(places, row as usize);
    if place < 0 { 0 } else { place as u64 }
}

/// The place from 1 in the whole of the row with this place from 0 among those that are read.
pub fn place_read(store: &Store, dists: &Sequence<Dist>, rows: &Rows, row: u64) -> u64
    ensures { result ≡ (rows_read dists.now store.now.number rows.now (data_of store.now)).place (row + 1) }
{
    match rows {
        Rows::Own(arrays) => own_place(before_first(store, dists, arrays.as_slice()), row),
        Rows::Got(columns) => match columns.as_slice() {
            [] => 0,
            [places, ..] => listed_place(loose_at(&store.loose, *places), row),
        },
    }
}
