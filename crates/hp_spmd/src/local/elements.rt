// What the instructions do that read elements of arrays.

ghost use Rattle.std.specs.Prelude.{◌≡◌, ◌+◌, ◌<◌, ◌^◌, IfOk, OnErr};
ghost use Rattle.hp_word.specs.ListRules.{element_at, elements_at};
ghost use Rattle.hp_spmd.specs.Arrays.{at_data, pick_data};
ghost use Rattle.hp_spmd.specs.Next.{Tells, lifted};
ghost use Rattle.hp_spmd.specs.Store.{data_of};

use crate::local::Local;
use crate::local::arrays::{cells_at, cut_like};
use crate::local::words::{put, word_at};
use crate::store::Store;
use hp_word::place::{NoMemory, Place, Trap, TrapKind};
use hp_word::sequence::Sequence;
use std::alloc::Global;

/// The element at a position from 1; `Index` where there is none.
#[tactic(auto, unfolding(hp_word::specs::ListRules::element_at))]
fn element_at(at: Place, cells: &[i64], position: i64) -> Result<i64, Trap>
    ensures { result ≡ element_at at cells.now position }
{
    if position < 1 {
        return Err(Trap {
            at,
            kind: TrapKind::Index,
        });
    }
    let place = (position - 1) as usize;
    if place >= cells.len() {
        return Err(Trap {
            at,
            kind: TrapKind::Index,
        });
    }
    Ok(cells[place])
}

/// Sets a word to the element of an array at the position that the word `index` says; traps at `at`.
#[tactic(auto, unfolding(crate::specs::Arrays::at_data))]
pub fn do_at(store: &mut Store, to: u32, array: u32, index: u32, at: Place) -> Local
    requires { store.old.position + 1 < 2 ^ 32 }
    ensures told { Tells (lifted (at_data to array index at (data_of store.old)) store.old) result store.old store.new }
    ensures number { store.new.number ≡ store.old.number }
    ensures ranks { store.new.ranks ≡ store.old.ranks }
{
    let position = word_at(&store.words, index);
    match element_at(at, cells_at(&store.arrays, array), position) {
        Err(trap) => Local::Trapped(trap.at, trap.kind),
        Ok(value) => {
            put(&mut store.words, to, value);
            store.position += 1;
            Local::Moved
        }
    }
}

/// The elements at these positions, or the first trap.
#[tactic(auto, unfolding(hp_word::specs::ListRules::elements_at), using(crate::proofs::GatherLemmas::elements_none, crate::proofs::GatherLemmas::elements_more, crate::proofs::GatherLemmas::elements_stop, crate::proofs::GatherLemmas::elements_made))]
fn elements_at(
    alloc: Global,
    at: Place,
    cells: &[i64],
    positions: &[i64],
) -> Result<Result<Sequence<i64>, Trap>, NoMemory>
    ensures { IfOk result (λ made. made ≡ elements_at at cells.now positions.now) }
{
    let mut made = Sequence::new(alloc);
    for position in positions {
        match element_at(at, cells, *position) {
            Ok(element) => made.push(element)?,
            Err(trap) => return Ok(Err(trap)),
        }
    }
    Ok(Ok(made))
}

/// Makes an array of the elements of another one at the positions that a third one's own cells say, with the rows and the
/// cuts of the third; traps at `at`.
#[tactic(auto, unfolding(crate::specs::Arrays::pick_data))]
pub fn do_pick(
    store: &mut Store,
    to: u32,
    array: u32,
    index: u32,
    at: Place,
) -> Result<Local, NoMemory>
    requires { store.old.position + 1 < 2 ^ 32 }
    ensures told { IfOk result (λ l. Tells (lifted (pick_data to array index at (data_of store.old)) store.old) l store.old store.new) }
    ensures err { OnErr result (store.new ≡ store.old) }
    ensures number { store.new.number ≡ store.old.number }
    ensures ranks { store.new.ranks ≡ store.old.ranks }
{
    let alloc = store.words.alloc();
    let cells = cells_at(&store.arrays, array);
    let positions = cells_at(&store.arrays, index);
    match elements_at(alloc, at, cells, positions)? {
        Err(trap) => Ok(Local::Trapped(trap.at, trap.kind)),
        Ok(picked) => {
            let piece = cut_like(alloc, &store.arrays, index, picked)?;
            put(&mut store.arrays, to, piece);
            store.position += 1;
            Ok(Local::Moved)
        }
    }
}
