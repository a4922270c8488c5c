// The places in the whole of a rank's own rows.

ghost use Rattle.std.specs.Prelude.{◌≡◌, ◌+◌, min};
ghost use Rattle.hp_spmd.specs.Frames.{before_first, before_own};
ghost use Rattle.hp_spmd.specs.Scalars.{greatest_count};
ghost use Rattle.hp_spmd.specs.Store.{data_of};

use crate::dist::Dist;
use crate::local::arrays::cuts_at;
use crate::local::pieces::dist_at;
use crate::store::Store;
use hp_word::sequence::Sequence;

// How many rows of the whole stand before a rank's own of an array; none of one that all ranks have.
fn before_own(dist: Dist, cuts: &[u64], number: u32) -> u64
    ensures { result ≡ before_own dist cuts.now number }
{
    match dist {
        Dist::Rep => 0,
        Dist::Var | Dist::Block => {
            let at = number as usize;
            if at < cuts.len() { cuts[at] } else { 0 }
        }
    }
}

/// How many rows of the whole stand before a rank's own of the first of these arrays; none where there is no array.
pub fn before_first(store: &Store, dists: &Sequence<Dist>, arrays: &[u32]) -> u64
    ensures { result ≡ before_first dists.now store.now.number arrays.now (data_of store.now) }
{
    match arrays {
        [] => 0,
        [first, ..] => {
            let cuts = cuts_at(&store.arrays, *first);
            before_own(dist_at(dists, *first), cuts, store.number)
        }
    }
}

/// The place in the whole, from 1, of a row by its place, from 1, among those behind so many others; one above the greatest
/// count counts as that.
pub fn place_in_whole(before: u64, place: u64) -> u64
    ensures { result ≡ min (before + place) greatest_count }
{
    before.saturating_add(place).min(i64::MAX as u64)
}
