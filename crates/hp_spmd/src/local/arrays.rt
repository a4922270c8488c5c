// What the instructions do that copy arrays and sum them up.

ghost use Rattle.std.specs.Prelude.{◌≡◌, ◌+◌, ◌<◌, ◌^◌, map, IfOk, OnErr};
ghost use Rattle.hp_word.specs.ListRules.{sums_after};
ghost use Rattle.hp_spmd.specs.Arrays.{cells_at, copy_data, scan_data};
ghost use Rattle.hp_spmd.specs.Loops.{cut_as};
ghost use Rattle.hp_spmd.specs.Next.{Tells, lifted};
ghost use Rattle.hp_spmd.specs.Store.{data_of, piece_at};

use crate::local::Local;
use crate::local::setting::put_all;
use crate::local::words::{put, word_at};
use crate::store::{Piece, Store};
use hp_word::fold::{FoldKind, fold_items};
use hp_word::place::NoMemory;
use hp_word::sequence::Sequence;
use hp_word::word::add;
use std::alloc::Global;

/// A rank's own cells of an array; none where there is no such array.
pub fn cells_at(arrays: &Sequence<Piece>, at: u32) -> &[i64]
    ensures { result.now ≡ cells_at arrays.now at }
{
    let (pieces, at) = (arrays.as_slice(), at as usize);
    if at < pieces.len() {
        pieces[at].cells.as_slice()
    } else {
        &[]
    }
}

/// The cuts of an array; none where there is no such array.
pub fn cuts_at(arrays: &Sequence<Piece>, at: u32) -> &[u64]
    ensures { result.now ≡ (piece_at arrays.now at).cuts }
{
    let (pieces, at) = (arrays.as_slice(), at as usize);
    if at < pieces.len() {
        pieces[at].cuts.as_slice()
    } else {
        &[]
    }
}

/// How many rows an array has; one where there is no such array.
pub fn rows_at(arrays: &Sequence<Piece>, at: u32) -> u64
    ensures { result ≡ (piece_at arrays.now at).rows }
{
    let (pieces, at) = (arrays.as_slice(), at as usize);
    if at < pieces.len() {
        pieces[at].rows
    } else {
        1
    }
}

/// A piece of these cells, with the rows and the cuts of an array.
pub fn cut_like(
    alloc: Global,
    arrays: &Sequence<Piece>,
    at: u32,
    cells: Sequence<i64>,
) -> Result<Piece, NoMemory>
    ensures { IfOk result (λ piece. piece ≡ cut_as (piece_at arrays.now at) cells) }
{
    Ok(Piece {
        rows: rows_at(arrays, at),
        cuts: Sequence::from_slice(alloc, cuts_at(arrays, at))?,
        cells,
    })
}

/// A copy of an array.
fn copied(alloc: Global, arrays: &Sequence<Piece>, at: u32) -> Result<Piece, NoMemory>
    ensures { IfOk result (λ piece. piece ≡ piece_at arrays.now at) }
{
    let cells = Sequence::from_slice(alloc, cells_at(arrays, at))?;
    cut_like(alloc, arrays, at, cells)
}

/// Copies of arrays.
fn copies(alloc: Global, arrays: &Sequence<Piece>, from: &[u32]) -> Result<Vec<Piece>, NoMemory>
    ensures { IfOk result (λ made. made.items ≡ map (piece_at arrays.now) from.now) }
{
    let mut made = Vec::with_capacity(alloc, from.len())?;
    for at in from {
        made.push(copied(alloc, arrays, *at)?)?;
    }
    Ok(made)
}

/// Copies arrays, one for one.
#[tactic(auto, unfolding(crate::specs::Arrays::copy_data))]
pub fn do_copy(
    store: &mut Store,
    to: &Sequence<u32>,
    from: &Sequence<u32>,
) -> Result<Local, NoMemory>
    requires { store.old.position + 1 < 2 ^ 32 }
    ensures told { IfOk result (λ l. Tells (lifted (copy_data to.now from.now (data_of store.old)) store.old) l store.old store.new) }
    ensures err { OnErr result (store.new ≡ store.old) }
    ensures number { store.new.number ≡ store.old.number }
    ensures ranks { store.new.ranks ≡ store.old.ranks }
{
    let alloc = store.words.alloc();
    let made = copies(alloc, &store.arrays, from.as_slice())?;
    put_all(&mut store.arrays, to.as_slice(), made);
    store.position += 1;
    Ok(Local::Moved)
}

/// The wrapped sums of the words up to each one and of what comes before them all.
fn running_sums(alloc: Global, before: i64, cells: &[i64]) -> Result<Sequence<i64>, NoMemory>
    ensures { IfOk result (λ made. made ≡ sums_after before cells.now) }
{
    let mut made = Sequence::new(alloc);
    let mut total = before;
    for cell in cells {
        total = add(total, *cell);
        made.push(total)?;
    }
    Ok(made)
}

/// Makes an array of the running sums of another one's own cells, behind the word `start`, and sets a word to their sum.
#[tactic(auto, unfolding(crate::specs::Arrays::scan_data))]
pub fn do_scan(
    store: &mut Store,
    to: u32,
    from: u32,
    start: u32,
    part: u32,
) -> Result<Local, NoMemory>
    requires { store.old.position + 1 < 2 ^ 32 }
    ensures told { IfOk result (λ l. Tells (lifted (scan_data to from start part (data_of store.old)) store.old) l store.old store.new) }
    ensures err { OnErr result (store.new ≡ store.old) }
    ensures number { store.new.number ≡ store.old.number }
    ensures ranks { store.new.ranks ≡ store.old.ranks }
{
    let alloc = store.words.alloc();
    let before = word_at(&store.words, start);
    let cells = cells_at(&store.arrays, from);
    let sum = fold_items(FoldKind::Sum, cells);
    let sums = running_sums(alloc, before, cells)?;
    let piece = cut_like(alloc, &store.arrays, from, sums)?;
    put(&mut store.arrays, to, piece);
    put(&mut store.words, part, sum);
    store.position += 1;
    Ok(Local::Moved)
}
