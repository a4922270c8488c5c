// What Check does to a store.

ghost use Rattle.std.specs.Prelude.{◌≡◌, ◌==◌, ◌+◌, ◌<◌, ◌^◌, nat_le, sum};
ghost use Rattle.std.specs.List.{list_all};
ghost use Rattle.hp_word.specs.Lengths.{longest};
ghost use Rattle.hp_spmd.specs.Next.{Tells, lifted};
ghost use Rattle.hp_spmd.specs.Scalars.{all_same, check_data, fault_of, first_not_zero, lengths_of, meets, piece_length};
ghost use Rattle.hp_spmd.specs.Store.{data_of, piece_at};

use crate::instr::CheckRule;
use crate::local::Local;
use crate::store::{Piece, Store};
use hp_word::lengths::LONGEST;
use hp_word::place::{Place, TrapKind};
use hp_word::sequence::Sequence;

/// Looks at the lengths of arrays: moves on where they are as the rule says, else traps at `at`.
#[tactic(auto, unfolding(crate::specs::Scalars::check_data))]
pub fn do_check(store: &mut Store, arrays: &Sequence<u32>, rule: CheckRule, at: Place) -> Local
    requires { store.old.position + 1 < 2 ^ 32 }
    ensures told { Tells (lifted (check_data arrays.now rule at (data_of store.old)) store.old) result store.old store.new }
    ensures number { store.new.number ≡ store.old.number }
    ensures ranks { store.new.ranks ≡ store.old.ranks }
{
    if !meets(&store.arrays, arrays.as_slice(), rule) {
        return Local::Trapped(at, fault_of(rule));
    }
    store.position += 1;
    Local::Moved
}

// The kind of trap where lengths are not as a rule says.
fn fault_of(rule: CheckRule) -> TrapKind
    ensures { result ≡ fault_of rule }
{
    match rule {
        CheckRule::Equal => TrapKind::Mismatch,
        CheckRule::Fits => TrapKind::TooLong,
        CheckRule::Some => TrapKind::Empty,
    }
}

// Whether the lengths of these arrays are as a rule says.
fn meets(pieces: &Sequence<Piece>, arrays: &[u32], rule: CheckRule) -> bool
    ensures { result ≡ meets rule (lengths_of arrays.now pieces.now) }
{
    match rule {
        CheckRule::Equal => are_equal(pieces, arrays),
        CheckRule::Fits => fit(pieces, arrays),
        CheckRule::Some => has_some(pieces, arrays),
    }
}

// Whether all these arrays have the length of the first.
fn are_equal(pieces: &Sequence<Piece>, arrays: &[u32]) -> bool
    ensures { result ≡ all_same (lengths_of arrays.now pieces.now) }
{
    match arrays {
        [] => true,
        [first, rest @ ..] => are_all(pieces, rest, length_at(pieces, *first)),
    }
}

// Whether all these arrays have this length.
fn are_all(pieces: &Sequence<Piece>, arrays: &[u32], length: u64) -> bool
    ensures { result ≡ list_all (λ n. n == length) (lengths_of arrays.now pieces.now) }
{
    arrays
        .iter()
        .map(|at| length_at(pieces, *at))
        .all(|other| other == length)
}

// Whether these arrays together are no longer than an array may be.
#[tactic(auto, using(crate::proofs::CheckNext::fits_more, crate::proofs::CheckNext::fits_no_more))]
fn fit(pieces: &Sequence<Piece>, arrays: &[u32]) -> bool
    ensures { result ≡ nat_le (sum (lengths_of arrays.now pieces.now)) longest }
{
    let mut left = LONGEST;
    for at in arrays {
        let length = length_at(pieces, *at);
        if length > left {
            return false;
        }
        left -= length;
    }
    true
}

// Whether the first of these arrays has an element.
fn has_some(pieces: &Sequence<Piece>, arrays: &[u32]) -> bool
    ensures { result ≡ first_not_zero (lengths_of arrays.now pieces.now) }
{
    match arrays.first() {
        Some(first) => length_at(pieces, *first) > 0,
        None => false,
    }
}

/// The length of an array, or 0 where the store has no such array; one above the greatest count counts as that.
pub fn length_at(pieces: &Sequence<Piece>, at: u32) -> u64
    ensures { result ≡ piece_length (piece_at pieces.now at) }
{
    let pieces = pieces.as_slice();
    let at = at as usize;
    if at < pieces.len() {
        length_of(&pieces[at])
    } else {
        0
    }
}

// The length of an array by a rank's piece of it.
fn length_of(piece: &Piece) -> u64
    ensures { result ≡ piece_length piece.now }
{
    let cuts = piece.cuts.as_slice();
    match cuts.last() {
        Some(length) => (*length).min(i64::MAX as u64),
        None => 0,
    }
}
