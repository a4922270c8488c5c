// Pieces of arrays: their cuts, and pieces that hold one value.

ghost use Rattle.std.specs.Prelude.{◌≡◌, ◌≤◌, ◌<◌, ◌-◌, suc, [], map, replicate, slice_index, IfOk};
ghost use Rattle.hp_cuts.specs.Blocks.{block_start, block_cuts};
ghost use Rattle.hp_spmd.specs.Cuts.{first_cuts, own_from, own_until};
ghost use Rattle.hp_spmd.specs.Matrices.{column_count, whole_piece};
ghost use Rattle.hp_spmd.specs.Store.{dealt, dist_at};

use crate::dist::{Dist, start};
use crate::local::words::{item_or, repeated};
use crate::store::Piece;
use hp_word::place::NoMemory;
use hp_word::sequence::Sequence;
use std::alloc::Global;

/// How an array lies on the ranks; in blocks where the code has no such array.
pub fn dist_at(dists: &Sequence<Dist>, at: u32) -> Dist
    ensures { result ≡ dist_at dists.now at }
{
    item_or(dists, at as usize, Dist::Block)
}

/// Where each rank's block begins, and then the length.
pub fn block_cuts(alloc: Global, length: u64, ranks: u32) -> Result<Sequence<u64>, NoMemory>
    requires some { 1 ≤ ranks }
    requires few { ranks ≤ 32 }
    ensures { IfOk result (λ cuts. cuts ≡ block_cuts length ranks) }
{
    let mut cuts = Vec::with_capacity(alloc, ranks as usize + 1)?;
    for rank in 0..ranks + 1 {
        cuts.push(start(rank, length, ranks))?;
    }
    Ok(Sequence::from_vec(cuts))
}

/// A rank's piece of an array of so many elements that are all this value, which is cut as one that is made so.
#[tactic(auto, unfolding(crate::specs::Store::piece_of), using(crate::proofs::LocalCuts::kept_in_piece, crate::proofs::LocalCuts::repeated_length))]
pub fn filled_piece(
    alloc: Global,
    dist: Dist,
    number: u32,
    ranks: u32,
    length: u64,
    value: i64,
) -> Result<Piece, NoMemory>
    requires few { ranks ≤ 32 }
    requires among { number < ranks }
    ensures { IfOk result (λ piece. piece ≡ dealt dist number ranks (replicate length value)) }
{
    let cuts = first_cuts(alloc, dist, length, ranks)?;
    let count = own_count(dist, number, ranks, length);
    Ok(Piece {
        rows: 1,
        cuts,
        cells: repeated(alloc, count, value)?,
    })
}

/// The cuts of an array that is made with this distribution.
pub fn first_cuts(
    alloc: Global,
    dist: Dist,
    length: u64,
    ranks: u32,
) -> Result<Sequence<u64>, NoMemory>
    requires some { 1 ≤ ranks }
    requires few { ranks ≤ 32 }
    ensures { IfOk result (λ cuts. cuts ≡ first_cuts dist length ranks) }
{
    match dist {
        Dist::Rep => Ok(Sequence::from_vec(vec![in alloc; 0, length]?)),
        Dist::Var | Dist::Block => block_cuts(alloc, length, ranks),
    }
}

/// How many elements of an array that is made with this distribution are a rank's own.
pub fn own_count(dist: Dist, number: u32, ranks: u32, length: u64) -> u64
    requires few { ranks ≤ 32 }
    requires among { number < ranks }
    ensures { let cuts = first_cuts dist length ranks in result ≡ own_until dist cuts number - own_from dist cuts number }
{
    match dist {
        Dist::Rep => length,
        Dist::Var | Dist::Block => own_block_count(number, ranks, length),
    }
}

// How many elements of an array in blocks are a rank's own.
#[tactic(auto, using(crate::proofs::LocalCuts::own_block, hp_cuts::proofs::BlockLemmas::start_rises))]
fn own_block_count(number: u32, ranks: u32, length: u64) -> u64
    requires few { ranks ≤ 32 }
    requires among { number < ranks }
    ensures { let cuts = block_cuts length ranks in result ≡ slice_index cuts (suc number) - slice_index cuts number }
{
    start(number + 1, length, ranks) - start(number, length, ranks)
}

/// A rank's pieces of arrays of no elements.
#[tactic(auto, using(std::proofs::lemmas::List::map_more))]
pub fn empty_arrays(
    alloc: Global,
    dists: &Sequence<Dist>,
    number: u32,
    ranks: u32,
) -> Result<Sequence<Piece>, NoMemory>
    requires few { ranks ≤ 32 }
    requires among { number < ranks }
    ensures { IfOk result (λ pieces. pieces ≡ map (λ dist. dealt dist number ranks []) dists.now) }
{
    let mut pieces = Vec::with_capacity(alloc, dists.len())?;
    for dist in dists.as_slice() {
        pieces.push(filled_piece(alloc, *dist, number, ranks, 0, 0)?)?;
    }
    Ok(Sequence::from_vec(pieces))
}

/// How many columns of so many cells each a list has.
#[tactic(auto, using(crate::proofs::LocalCuts::count_some, crate::proofs::LocalCuts::count_none))]
pub fn column_count(rows: u64, cells: &[i64]) -> u64
    ensures { result ≡ column_count rows cells.now }
{
    if rows == 0 {
        return 0;
    }
    cells.len() as u64 / rows
}

/// An array of so many rows that is whole on each rank.
pub fn whole_piece(alloc: Global, rows: u64, cells: Sequence<i64>) -> Result<Piece, NoMemory>
    ensures { IfOk result (λ piece. piece ≡ whole_piece rows cells) }
{
    let columns = column_count(rows, cells.as_slice());
    Ok(Piece {
        rows,
        cuts: Sequence::from_vec(vec![in alloc; 0, columns]?),
        cells,
    })
}
