// What Fill does to a store.

ghost use Rattle.std.specs.Prelude.{◌≡◌, ◌+◌, ◌<◌, ◌≤◌, ◌^◌, IfOk, OnErr};
ghost use Rattle.hp_spmd.specs.Arrays.{fill_data};
ghost use Rattle.hp_spmd.specs.Next.{Tells, lifted};
ghost use Rattle.hp_spmd.specs.Store.{data_of};

use crate::dist::Dist;
use crate::local::Local;
use crate::local::pieces::{dist_at, filled_piece};
use crate::local::words::{put, word_at};
use crate::store::Store;
use hp_word::lengths::length_of;
use hp_word::place::{NoMemory, Place};
use hp_word::sequence::Sequence;

/// Makes an array of as many elements as the word `count` says, all of them the word `value`.
#[tactic(auto, unfolding(crate::specs::Arrays::fill_data, hp_word::specs::ListRules::filled))]
pub fn do_fill(
    store: &mut Store,
    dists: &Sequence<Dist>,
    to: u32,
    value: u32,
    count: u32,
    at: Place,
) -> Result<Local, NoMemory>
    requires next { store.old.position + 1 < 2 ^ 32 }
    requires few { store.old.ranks ≤ 32 }
    requires among { store.old.number < store.old.ranks }
    ensures told { IfOk result (λ l. Tells (lifted (fill_data dists.now store.old.number store.old.ranks to value count at (data_of store.old)) store.old) l store.old store.new) }
    ensures err { OnErr result (store.new ≡ store.old) }
    ensures number { store.new.number ≡ store.old.number }
    ensures ranks { store.new.ranks ≡ store.old.ranks }
{
    let length = match length_of(at, word_at(&store.words, count)) {
        Ok(length) => length,
        Err(trap) => return Ok(Local::Trapped(trap.at, trap.kind)),
    };
    let alloc = store.words.alloc();
    let value = word_at(&store.words, value);
    let dist = dist_at(dists, to);
    let piece = filled_piece(alloc, dist, store.number, store.ranks, length, value)?;
    put(&mut store.arrays, to, piece);
    store.position += 1;
    Ok(Local::Moved)
}
