// Which places of an array a rank needs.

ghost use Rattle.std.specs.Prelude.{◌≡◌, ◌+◌, ◌-◌, ◌^◌, ◌≤◌, ◌<◌, min, map, slice_index, suc, IfOk};
ghost use Rattle.std.specs.List.{range_with_len};
ghost use Rattle.hp_cuts.specs.Blocks.{block_start};
ghost use Rattle.hp_spmd.specs.Needs.{back, block_span, both_lengths, cut_to, need_cuts, need_span, own_span, widened};
ghost use Rattle.hp_spmd.specs.Scalars.{greatest_count, piece_length};
ghost use Rattle.hp_spmd.specs.Store.{piece_at};

use crate::dist::{Dist, start};
use crate::instr::Need;
use crate::local::arrays::cuts_at;
use crate::local::check::length_at;
use crate::local::pieces::{block_cuts, dist_at};
use crate::store::Piece;
use hp_cuts::cuts::Span;
use hp_word::place::NoMemory;
use hp_word::sequence::Sequence;
use std::alloc::Global;

/// The cut at a position, 0 where there is none; one above the greatest count counts as that.
fn cut_at(cuts: &[u64], at: usize) -> u64
    ensures { result ≡ min (slice_index cuts.now at) greatest_count }
{
    let cut = if at < cuts.len() { cuts[at] } else { 0 };
    cut.min(i64::MAX as u64)
}

/// The columns that a rank has of an array that lies so.
pub fn own_span(dist: Dist, cuts: &[u64], rank: usize) -> Span
    requires { rank + 1 < 2 ^ 64 }
    ensures { result ≡ own_span dist cuts.now rank }
{
    match dist {
        Dist::Rep => Span {
            from: cut_at(cuts, 0),
            until: cut_at(cuts, 1),
        },
        Dist::Var | Dist::Block => Span {
            from: cut_at(cuts, rank),
            until: cut_at(cuts, rank + 1),
        },
    }
}

/// The length of an array with another one behind it; one above the greatest count counts as that.
pub fn both_lengths(first: u64, second: u64) -> u64
    ensures { result ≡ both_lengths first second }
{
    first.saturating_add(second).min(i64::MAX as u64)
}

/// The block of a rank.
pub fn block_span(rank: u32, length: u64, ranks: u32) -> Span
    requires few { ranks ≤ 32 }
    requires among { rank < ranks }
    ensures { result ≡ block_span rank length ranks }
{
    Span {
        from: start(rank, length, ranks),
        until: start(rank + 1, length, ranks),
    }
}

// A range widened at both ends, as far as the array goes; an empty one is not widened.
fn widened(reach: u32, length: u64, of: Span) -> Span
    ensures { result ≡ widened reach length of }
{
    if of.from == of.until {
        return of;
    }
    let reach = u64::from(reach);
    Span {
        from: of.from.saturating_sub(reach),
        until: of.until.saturating_add(reach).min(length),
    }
}

// A range as far as an array goes.
fn cut_to(length: u64, of: Span) -> Span
    ensures { result ≡ cut_to length of }
{
    Span {
        from: of.from.min(length),
        until: of.until.min(length),
    }
}

// A range so many places further back.
fn back(places: u64, of: Span) -> Span
    ensures { result ≡ back places of }
{
    Span {
        from: of.from.saturating_sub(places),
        until: of.until.saturating_sub(places),
    }
}

/// What a rank needs of an array of this length.
#[tactic(auto, unfolding(crate::specs::Needs::need_span))]
pub fn need_span(
    need: Need,
    dists: &Sequence<Dist>,
    arrays: &Sequence<Piece>,
    rank: u32,
    length: u64,
    ranks: u32,
) -> Span
    requires few { ranks ≤ 32 }
    requires among { rank < ranks }
    ensures { result ≡ need_span need dists.now arrays.now rank length ranks }
{
    match need {
        Need::Like(array) => own_span(dist_at(dists, array), cuts_at(arrays, array), rank as usize),
        Need::Blocks => block_span(rank, length, ranks),
        Need::Wide(reach) => widened(reach, length, block_span(rank, length, ranks)),
        Need::Whole => Span {
            from: 0,
            until: length,
        },
        Need::First(other) => {
            let both = both_lengths(length, length_at(arrays, other));
            cut_to(length, block_span(rank, both, ranks))
        }
        Need::Second(other) => {
            let before = length_at(arrays, other);
            let both = both_lengths(before, length);
            cut_to(length, back(before, block_span(rank, both, ranks)))
        }
    }
}

// Where each rank's block begins of two arrays, one behind the other, counted from the second one's first place and as far
// as an array of this length goes.
#[tactic(auto, using(crate::proofs::GatherLemmas::made_more, crate::proofs::GatherLemmas::made_all))]
fn cuts_behind(
    alloc: Global,
    before: u64,
    both: u64,
    length: u64,
    ranks: u32,
) -> Result<Sequence<u64>, NoMemory>
    requires some { 1 ≤ ranks }
    requires few { ranks ≤ 32 }
    ensures { IfOk result (λ cuts. cuts ≡ map (λ r. min (block_start r both ranks - before) length) (range_with_len 0 (suc ranks))) }
{
    let mut cuts = Vec::with_capacity(alloc, ranks as usize + 1)?;
    for rank in 0..ranks + 1 {
        let place = start(rank, both, ranks).saturating_sub(before);
        cuts.push(place.min(length))?;
    }
    Ok(Sequence::from_vec(cuts))
}

/// The cuts of an array that each rank has got what it needs of.
#[tactic(auto, unfolding(crate::specs::Needs::need_cuts), using(crate::proofs::MoveLemmas::cuts_before))]
pub fn need_cuts(
    alloc: Global,
    need: Need,
    arrays: &Sequence<Piece>,
    length: u64,
    ranks: u32,
) -> Result<Sequence<u64>, NoMemory>
    requires some { 1 ≤ ranks }
    requires few { ranks ≤ 32 }
    ensures { IfOk result (λ cuts. cuts ≡ need_cuts need arrays.now length ranks) }
{
    match need {
        Need::Like(array) => Ok(Sequence::from_slice(alloc, cuts_at(arrays, array))?),
        Need::Blocks | Need::Wide(_) => block_cuts(alloc, length, ranks),
        Need::Whole => Ok(Sequence::from_vec(vec![in alloc; 0, length]?)),
        Need::First(other) => {
            let both = both_lengths(length, length_at(arrays, other));
            cuts_behind(alloc, 0, both, length, ranks)
        }
        Need::Second(other) => {
            let before = length_at(arrays, other);
            cuts_behind(alloc, before, both_lengths(before, length), length, ranks)
        }
    }
}
