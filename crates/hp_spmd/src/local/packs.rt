// The messages of a Move and of a Hash: for each rank, from the rank that packs.

ghost use Rattle.std.specs.Prelude.{◌≡◌, ◌≤◌, ◌<◌, ◌*◌, ◌++◌, ◌+◌, ◌^◌, min, pos, suc, length, map, flat_map, replicate, take, drop, IfOk, OnOk};
ghost use Rattle.hp_word.specs.RowRules.{column_at};
ghost use Rattle.hp_word.specs.Tables.{row_count};
ghost use Rattle.hp_spmd.specs.Arrays.{cells_at};
ghost use Rattle.hp_spmd.specs.HashParts.{messages_with, row_behind};
ghost use Rattle.hp_spmd.specs.Messages.{message_of};
ghost use Rattle.hp_spmd.specs.Needs.{need_span};
ghost use Rattle.hp_spmd.specs.Packs.{cells_in, hash_packed, move_packed};
ghost use Rattle.hp_spmd.specs.Scalars.{greatest_count, piece_length};
ghost use Rattle.hp_spmd.specs.Store.{data_of, dist_at, kept, no_message, piece_at};

use crate::dist::Dist;
use crate::instr::Need;
use crate::local::arrays::{cells_at, cuts_at, rows_at};
use crate::local::check::length_at;
use crate::local::needs::{need_span, own_span};
use crate::local::pieces::dist_at;
use crate::local::places::{before_first, place_in_whole};
use crate::local::words::{cell_in, empty_messages};
use crate::store::{Piece, Store};
use hp_cuts::cuts::{Span, target};
use hp_word::place::NoMemory;
use hp_word::sequence::Sequence;
use hp_word::table::Message;
use std::alloc::Global;

// ---- Move

/// So many words behind so many others, as far as there are any.
#[tactic(auto, using(crate::proofs::MoveLemmas::part_is))]
pub fn words_behind(words: &[i64], skipped: u64, count: u64) -> &[i64]
    ensures { result.now ≡ take count (drop skipped words.now) }
{
    let length = words.len() as u64;
    let from = skipped.min(length);
    let until = from + count.min(length - from);
    &words[from as usize..until as usize]
}

/// Of cells with so many rows that begin at a column, those of a range of columns.
#[tactic(auto, using(crate::proofs::MoveLemmas::kept_rows))]
fn cells_of(cells: &[i64], rows: u64, first: u64, needed: Span) -> &[i64]
    ensures { result.now ≡ kept (rows * needed.from) (rows * needed.until) (rows * first) cells.now }
{
    let skipped = rows.saturating_mul(needed.from.saturating_sub(first));
    let columns = needed.until.saturating_sub(needed.from.max(first));
    words_behind(cells, skipped, rows.saturating_mul(columns))
}

/// The own cells of an array that a rank needs.
fn needed_cells<'a>(
    store: &'a Store,
    dists: &Sequence<Dist>,
    array: u32,
    need: Need,
    rank: u32,
) -> &'a [i64]
    requires few { store.now.ranks ≤ 32 }
    requires among { store.now.number < store.now.ranks }
    requires rank { rank < store.now.ranks }
    ensures { result.now ≡ cells_in (dist_at dists.now array) store.now.number (piece_at store.now.arrays array) (need_span need dists.now store.now.arrays rank (piece_length (piece_at store.now.arrays array)) store.now.ranks) }
{
    let arrays = &store.arrays;
    let own = own_span(
        dist_at(dists, array),
        cuts_at(arrays, array),
        store.number as usize,
    );
    let needed = need_span(
        need,
        dists,
        arrays,
        rank,
        length_at(arrays, array),
        store.ranks,
    );
    cells_of(
        cells_at(arrays, array),
        rows_at(arrays, array),
        own.from,
        needed,
    )
}

/// The own cells of these arrays that a rank needs, as a message.
fn moved_message(
    alloc: Global,
    store: &Store,
    dists: &Sequence<Dist>,
    arrays: &[u32],
    need: Need,
    rank: u32,
) -> Result<Message, NoMemory>
    requires few { store.now.ranks ≤ 32 }
    requires among { store.now.number < store.now.ranks }
    requires rank { rank < store.now.ranks }
    ensures { IfOk
        result
        (λ m. m ≡ message_of (flat_map (λ k. cells_in (dist_at dists.now k) store.now.number (piece_at store.now.arrays k) (need_span need dists.now store.now.arrays rank (piece_length (piece_at store.now.arrays k)) store.now.ranks)) arrays.now)) }
{
    let mut words = Vec::new(alloc);
    for array in arrays {
        words.extend_from_slice(needed_cells(store, dists, *array, need, rank))?;
    }
    Ok(Message {
        words: Sequence::from_vec(words),
    })
}

/// For each rank the own cells of these arrays that it needs.
#[tactic(auto, unfolding(crate::specs::Packs::move_packed), using(crate::proofs::GatherLemmas::made_more))]
pub fn move_packed(
    alloc: Global,
    store: &Store,
    dists: &Sequence<Dist>,
    arrays: &[u32],
    need: Need,
) -> Result<Sequence<Message>, NoMemory>
    requires few { store.now.ranks ≤ 32 }
    requires among { store.now.number < store.now.ranks }
    ensures { IfOk result (λ list. list ≡ move_packed dists.now arrays.now need store.now.number store.now.ranks (data_of store.now)) }
{
    let mut list = Vec::with_capacity(alloc, store.ranks as usize)?;
    for rank in 0..store.ranks {
        let message = moved_message(alloc, store, dists, arrays, need, rank)?;
        list.push(message)?;
    }
    Ok(Sequence::from_vec(list))
}

// ---- Hash

// The key column of these arrays; no cells where there is none.
#[tactic(auto, using(crate::proofs::HashLemmas::key_there, crate::proofs::HashLemmas::key_past))]
fn key_cells<'a>(pieces: &'a Sequence<Piece>, arrays: &[u32], key: u32) -> &'a [i64]
    ensures { result.now ≡ column_at key (map (cells_at pieces.now) arrays.now) }
{
    let key = key as usize;
    if key < arrays.len() {
        cells_at(pieces, arrays[key])
    } else {
        &[]
    }
}

// How many own rows these arrays have, by the first one.
fn row_count(pieces: &Sequence<Piece>, arrays: &[u32]) -> usize
    ensures { result ≡ row_count (map (cells_at pieces.now) arrays.now) }
{
    match arrays {
        [] => 0,
        [first, ..] => cells_at(pieces, *first).len(),
    }
}

// The place in the whole of a row by its place from 0 among those behind so many others, as a word.
fn place_word(before: u64, row: usize) -> i64
    requires { row + 1 < 2 ^ 64 }
    ensures { result ≡ pos (min (before + suc row) greatest_count) }
{
    place_in_whole(before, row as u64 + 1) as i64
}

// Adds a row to a message: its place in the whole, and its cells.
fn add_row(
    message: &mut Message,
    pieces: &Sequence<Piece>,
    arrays: &[u32],
    before: u64,
    row: usize,
) -> Result<(), NoMemory>
    requires { row + 1 < 2 ^ 64 }
    ensures { OnOk result (message.new ≡ message_of (message.old.words ++ row_behind before (map (cells_at pieces.now) arrays.now) row)) }
{
    message.words.push(place_word(before, row))?;
    for array in arrays {
        message.words.push(cell_in(cells_at(pieces, *array), row))?;
    }
    Ok(())
}

// Adds each of so many rows to the message of the rank that is its key's target.
fn add_rows(
    messages: &mut [Message],
    pieces: &Sequence<Piece>,
    arrays: &[u32],
    keys: &[i64],
    before: u64,
    count: usize,
) -> Result<(), NoMemory>
    requires some { 1 ≤ length messages.old }
    requires few { length messages.old ≤ 32 }
    requires empty { messages.old ≡ replicate (length messages.old) no_message }
    ensures { OnOk result (messages.new ≡ messages_with (length messages.old) keys.now (row_behind before (map (cells_at pieces.now) arrays.now)) count) }
{
    let ranks = messages.len() as u32;
    for row in 0..count {
        let to = target(cell_in(keys, row), ranks) as usize;
        let message = &mut messages[to];
        add_row(message, pieces, arrays, before, row)?;
    }
    Ok(())
}

/// For each rank the own rows of these arrays whose key has that rank as its target.
#[tactic(auto, unfolding(crate::specs::Packs::hash_packed), using(crate::proofs::HashLemmas::empty_count))]
pub fn hash_packed(
    alloc: Global,
    store: &Store,
    dists: &Sequence<Dist>,
    arrays: &[u32],
    key: u32,
) -> Result<Sequence<Message>, NoMemory>
    requires some { 1 ≤ store.now.ranks }
    requires few { store.now.ranks ≤ 32 }
    ensures { IfOk result (λ list. list ≡ hash_packed dists.now arrays.now key store.now.number store.now.ranks (data_of store.now)) }
{
    let mut messages = empty_messages(alloc, store.ranks)?;
    let before = before_first(store, dists, arrays);
    let pieces = &store.arrays;
    let keys = key_cells(pieces, arrays, key);
    let count = row_count(pieces, arrays);
    add_rows(&mut messages, pieces, arrays, keys, before, count)?;
    Ok(Sequence::from_vec(messages))
}
