// What the instructions do that set a word.

ghost use Rattle.std.specs.Prelude.{◌≡◌, ◌+◌, ◌<◌, ◌^◌};
ghost use Rattle.hp_spmd.specs.Next.{Tells, lifted};
ghost use Rattle.hp_spmd.specs.Scalars.{calc_data, const_data, length_data};
ghost use Rattle.hp_spmd.specs.Store.{data_of};

use crate::local::Local;
use crate::local::check::length_at;
use crate::local::words::{count_word, put, word_at};
use crate::store::Store;
use hp_word::place::Place;
use hp_word::word::{CalcOp, calc};

/// Sets a word.
#[tactic(auto, unfolding(crate::specs::Scalars::const_data))]
pub fn do_const(store: &mut Store, to: u32, value: i64) -> Local
    requires { store.old.position + 1 < 2 ^ 32 }
    ensures told { Tells (lifted (const_data to value (data_of store.old)) store.old) result store.old store.new }
    ensures number { store.new.number ≡ store.old.number }
    ensures ranks { store.new.ranks ≡ store.old.ranks }
{
    put(&mut store.words, to, value);
    store.position += 1;
    Local::Moved
}

/// Sets a word to what an operation gives of two words; traps at `at`.
#[tactic(auto, unfolding(crate::specs::Scalars::calc_data))]
pub fn do_calc(store: &mut Store, to: u32, op: CalcOp, left: u32, right: u32, at: Place) -> Local
    requires { store.old.position + 1 < 2 ^ 32 }
    ensures told { Tells (lifted (calc_data to op left right at (data_of store.old)) store.old) result store.old store.new }
    ensures number { store.new.number ≡ store.old.number }
    ensures ranks { store.new.ranks ≡ store.old.ranks }
{
    match calc(
        op,
        word_at(&store.words, left),
        word_at(&store.words, right),
    ) {
        Err(kind) => Local::Trapped(at, kind),
        Ok(value) => {
            put(&mut store.words, to, value);
            store.position += 1;
            Local::Moved
        }
    }
}

/// Sets a word to the length of an array.
#[tactic(auto, unfolding(crate::specs::Scalars::length_data))]
pub fn do_length(store: &mut Store, to: u32, array: u32) -> Local
    requires { store.old.position + 1 < 2 ^ 32 }
    ensures told { Tells (lifted (length_data to array (data_of store.old)) store.old) result store.old store.new }
    ensures number { store.new.number ≡ store.old.number }
    ensures ranks { store.new.ranks ≡ store.old.ranks }
{
    let length = length_at(&store.arrays, array);
    put(&mut store.words, to, count_word(length));
    store.position += 1;
    Local::Moved
}
