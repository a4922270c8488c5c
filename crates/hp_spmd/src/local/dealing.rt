// What the instructions do that deal a whole array out anew: ranges, and the columns of tables.

ghost use Rattle.std.specs.Prelude.{◌≡◌, ◌≤◌, ◌<◌, ◌+◌, ◌^◌, ◌+ℤ◌, ◌≤ℤ◌, pos, length, map, slice_index, IfOk, OnErr};
ghost use Rattle.std.specs.List.{range_with_len};
ghost use Rattle.hp_word.specs.ListRules.{range_count, span};
ghost use Rattle.hp_word.specs.RowRules.{column_at};
ghost use Rattle.hp_spmd.specs.Arrays.{columns_at, range_data, table_data};
ghost use Rattle.hp_spmd.specs.Cuts.{first_cuts, own_from};
ghost use Rattle.hp_spmd.specs.Next.{Tells, lifted};
ghost use Rattle.hp_spmd.specs.Store.{data_of, dealt, dist_at};

use crate::dist::{Dist, start};
use crate::local::Local;
use crate::local::pieces::{dist_at, first_cuts, own_count};
use crate::local::setting::put_all;
use crate::local::words::{put, word_at};
use crate::store::{Piece, Store};
use hp_word::lengths::LONGEST;
use hp_word::place::{NoMemory, Place, Trap, TrapKind};
use hp_word::sequence::Sequence;
use hp_word::table::Tables;
use std::alloc::Global;

/// The first of a rank's own places of an array that is made with this distribution.
#[tactic(auto, using(crate::proofs::LocalCuts::block_cuts_at))]
fn own_start(dist: Dist, number: u32, ranks: u32, length: u64) -> u64
    requires few { ranks ≤ 32 }
    requires among { number < ranks }
    ensures { result ≡ own_from dist (first_cuts dist length ranks) number }
{
    match dist {
        Dist::Rep => 0,
        Dist::Var | Dist::Block => start(number, length, ranks),
    }
}

// ---- ranges

/// How many numbers there are from one up to another; `TooLong` where they are more than an array may have.
#[tactic(auto, unfolding(hp_word::specs::ListRules::range_count))]
fn range_count(at: Place, first: i64, last: i64) -> Result<u64, Trap>
    ensures exact { result ≡ range_count at first last }
    ensures short { IfOk result (λ n. n ≤ 1048576) }
    ensures fits { IfOk result (λ n. (first +ℤ pos n) ≤ℤ pos 9223372036854775808) }
{
    if last < first {
        return Ok(0);
    }
    let count = i128::from(last) - i128::from(first) + 1;
    if count > i128::from(LONGEST) {
        return Err(Trap {
            at,
            kind: TrapKind::TooLong,
        });
    }
    Ok(count as u64)
}

/// So many numbers from one on, the last of which is a word.
#[tactic(auto, unfolding(hp_word::specs::ListRules::span))]
fn numbers_from(alloc: Global, first: i64, count: u64) -> Result<Sequence<i64>, NoMemory>
    requires few { count ≤ 1048576 }
    requires fits { (first +ℤ pos count) ≤ℤ pos 9223372036854775808 }
    ensures { IfOk result (λ made. made ≡ span first count) }
{
    let mut made = Sequence::new(alloc);
    for i in 0..count {
        made.push(first + i as i64)?;
    }
    Ok(made)
}

/// So many numbers from the one on that stands so many places behind another; where there are none, it need be no word.
#[tactic(auto, unfolding(hp_word::specs::ListRules::span))]
fn own_numbers(alloc: Global, first: i64, from: u64, count: u64) -> Result<Sequence<i64>, NoMemory>
    requires few { from + count ≤ 1048576 }
    requires fits { (first +ℤ pos (from + count)) ≤ℤ pos 9223372036854775808 }
    ensures { IfOk result (λ made. made ≡ span (first +ℤ pos from) count) }
{
    if count == 0 {
        return Ok(Sequence::new(alloc));
    }
    numbers_from(alloc, first + from as i64, count)
}

/// A rank's piece of so many numbers from one on.
#[tactic(auto, unfolding(crate::specs::Store::piece_of), using(crate::proofs::DealLemmas::span_in_piece, crate::proofs::DealLemmas::span_length))]
fn range_piece(
    alloc: Global,
    dist: Dist,
    number: u32,
    ranks: u32,
    first: i64,
    length: u64,
) -> Result<Piece, NoMemory>
    requires few { ranks ≤ 32 }
    requires among { number < ranks }
    requires short { length ≤ 1048576 }
    requires fits { (first +ℤ pos length) ≤ℤ pos 9223372036854775808 }
    ensures { IfOk result (λ piece. piece ≡ dealt dist number ranks (span first length)) }
{
    let cuts = first_cuts(alloc, dist, length, ranks)?;
    let from = own_start(dist, number, ranks, length);
    let count = own_count(dist, number, ranks, length);
    Ok(Piece {
        rows: 1,
        cuts,
        cells: own_numbers(alloc, first, from, count)?,
    })
}

/// Makes an array of the whole numbers from one word up to another; traps at `at`.
#[tactic(auto, unfolding(crate::specs::Arrays::range_data, hp_word::specs::ListRules::range_of))]
pub fn do_range(
    store: &mut Store,
    dists: &Sequence<Dist>,
    to: u32,
    first: u32,
    last: u32,
    at: Place,
) -> Result<Local, NoMemory>
    requires next { store.old.position + 1 < 2 ^ 32 }
    requires few { store.old.ranks ≤ 32 }
    requires among { store.old.number < store.old.ranks }
    ensures told { IfOk result (λ l. Tells (lifted (range_data dists.now store.old.number store.old.ranks to first last at (data_of store.old)) store.old) l store.old store.new) }
    ensures err { OnErr result (store.new ≡ store.old) }
    ensures number { store.new.number ≡ store.old.number }
    ensures ranks { store.new.ranks ≡ store.old.ranks }
{
    let first = word_at(&store.words, first);
    let length = match range_count(at, first, word_at(&store.words, last)) {
        Ok(length) => length,
        Err(trap) => return Ok(Local::Trapped(trap.at, trap.kind)),
    };
    let alloc = store.words.alloc();
    let dist = dist_at(dists, to);
    let piece = range_piece(alloc, dist, store.number, store.ranks, first, length)?;
    put(&mut store.arrays, to, piece);
    store.position += 1;
    Ok(Local::Moved)
}

// ---- tables

/// A rank's own part of a whole vector that is dealt out.
#[tactic(auto, unfolding(crate::specs::Store::piece_of), using(crate::proofs::DealLemmas::kept_between, crate::proofs::DealLemmas::own_within))]
fn dealt_piece(
    alloc: Global,
    dist: Dist,
    number: u32,
    ranks: u32,
    whole: &[i64],
) -> Result<Piece, NoMemory>
    requires few { ranks ≤ 32 }
    requires among { number < ranks }
    ensures { IfOk result (λ piece. piece ≡ dealt dist number ranks whole.now) }
{
    let length = whole.len() as u64;
    let cuts = first_cuts(alloc, dist, length, ranks)?;
    let from = own_start(dist, number, ranks, length) as usize;
    let until = from + own_count(dist, number, ranks, length) as usize;
    Ok(Piece {
        rows: 1,
        cuts,
        cells: Sequence::from_slice(alloc, &whole[from..until])?,
    })
}

/// The columns of the table at a position; none where there is no such table.
#[tactic(auto, using(crate::proofs::DealLemmas::columns_there, crate::proofs::DealLemmas::columns_past))]
fn columns_at(tables: &Tables, table: u32) -> &[Sequence<i64>]
    ensures { result.now ≡ columns_at tables.now.list table }
{
    match tables.list.get(table as usize) {
        Some(table) => table.columns.as_slice(),
        None => &[],
    }
}

/// The column at a position; no cells where there is none.
fn column_at(columns: &[Sequence<i64>], at: usize) -> &[i64]
    ensures { result.now ≡ column_at at columns.now }
{
    if at < columns.len() {
        columns[at].as_slice()
    } else {
        &[]
    }
}

/// The rank's own part of the column that goes into the array at a place of these.
fn column_piece(
    alloc: Global,
    dists: &Sequence<Dist>,
    columns: &[Sequence<i64>],
    number: u32,
    ranks: u32,
    to: &[u32],
    place: usize,
) -> Result<Piece, NoMemory>
    requires few { ranks ≤ 32 }
    requires among { number < ranks }
    requires inside { place < length to.now }
    ensures { IfOk result (λ piece. piece ≡ dealt (dist_at dists.now (slice_index to.now place)) number ranks (column_at place columns.now)) }
{
    let column = column_at(columns, place);
    dealt_piece(alloc, dist_at(dists, to[place]), number, ranks, column)
}

/// The rank's own parts of a table's columns, one for each of these arrays.
#[tactic(auto, using(crate::proofs::GatherLemmas::made_more))]
fn column_pieces(
    alloc: Global,
    dists: &Sequence<Dist>,
    columns: &[Sequence<i64>],
    number: u32,
    ranks: u32,
    to: &[u32],
) -> Result<Vec<Piece>, NoMemory>
    requires few { ranks ≤ 32 }
    requires among { number < ranks }
    ensures { IfOk result (λ made. made.items ≡ map (λ k. dealt (dist_at dists.now (slice_index to.now k)) number ranks (column_at k columns.now)) (range_with_len 0 (length to.now))) }
{
    let mut made = Vec::with_capacity(alloc, to.len())?;
    for k in 0..to.len() {
        let piece = column_piece(alloc, dists, columns, number, ranks, to, k)?;
        made.push(piece)?;
    }
    Ok(made)
}

/// Makes an array of each column of a table.
#[tactic(auto, unfolding(crate::specs::Arrays::table_data))]
pub fn do_table(
    store: &mut Store,
    dists: &Sequence<Dist>,
    tables: &Tables,
    to: &Sequence<u32>,
    table: u32,
) -> Result<Local, NoMemory>
    requires next { store.old.position + 1 < 2 ^ 32 }
    requires few { store.old.ranks ≤ 32 }
    requires among { store.old.number < store.old.ranks }
    ensures told { IfOk result (λ l. Tells (lifted (table_data dists.now tables.now store.old.number store.old.ranks to.now table (data_of store.old)) store.old) l store.old store.new) }
    ensures err { OnErr result (store.new ≡ store.old) }
    ensures number { store.new.number ≡ store.old.number }
    ensures ranks { store.new.ranks ≡ store.old.ranks }
{
    let alloc = store.words.alloc();
    let columns = columns_at(tables, table);
    let to = to.as_slice();
    let made = column_pieces(alloc, dists, columns, store.number, store.ranks, to)?;
    put_all(&mut store.arrays, to, made);
    store.position += 1;
    Ok(Local::Moved)
}
