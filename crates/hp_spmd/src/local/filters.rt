// What Select does to a store.

ghost use Rattle.std.specs.Prelude.{◌≡◌, ◌+◌, ◌<◌, ◌^◌, length, map, IfOk, OnErr};
ghost use Rattle.hp_word.specs.RowRules.{filter_rows};
ghost use Rattle.hp_spmd.specs.Arrays.{cells_at};
ghost use Rattle.hp_spmd.specs.Frames.{levelled, ones, select_data};
ghost use Rattle.hp_spmd.specs.Next.{Tells, lifted};
ghost use Rattle.hp_spmd.specs.Store.{data_of};

use crate::instr::Target;
use crate::local::Local;
use crate::local::arrays::cells_at;
use crate::local::columns::put_columns;
use crate::local::words::cell_in;
use crate::store::{Piece, Store};
use hp_kernels::filters::select;
use hp_word::place::NoMemory;
use hp_word::sequence::Sequence;
use hp_word::word::word_of;
use std::alloc::Global;

/// 1 at each word that is 1, and 0 at the others.
fn ones(alloc: Global, words: &[i64]) -> Result<Vec<i64>, NoMemory>
    ensures { IfOk result (λ made. made.items ≡ ones words.now) }
{
    let mut made = Vec::with_capacity(alloc, words.len())?;
    for word in words {
        made.push(word_of(*word == 1))?;
    }
    Ok(made)
}

/// So many cells of a column, 0 where it has none.
#[tactic(auto, using(crate::proofs::RowNext::levelled_more))]
fn levelled(alloc: Global, rows: usize, cells: &[i64]) -> Result<Vec<i64>, NoMemory>
    ensures { IfOk result (λ made. made.items ≡ levelled rows cells.now) }
{
    let mut made = Vec::with_capacity(alloc, rows)?;
    for place in 0..rows {
        made.push(cell_in(cells, place))?;
    }
    Ok(made)
}

/// The cells of a column at which the mask is true, of as many as the mask has.
#[tactic(auto, using(crate::proofs::RowNext::filter_levelled))]
fn selected(alloc: Global, mask: &[i64], cells: &[i64]) -> Result<Vec<i64>, NoMemory>
    ensures { IfOk result (λ made. made.items ≡ filter_rows mask.now (levelled (length mask.now) cells.now)) }
{
    if cells.len() >= mask.len() {
        return select(alloc, mask, cells);
    }
    let level = levelled(alloc, mask.len(), cells)?;
    select(alloc, mask, level.as_slice())
}

/// The same of several arrays.
fn selected_columns(
    alloc: Global,
    arrays: &Sequence<Piece>,
    mask: &[i64],
    from: &[u32],
) -> Result<Vec<Sequence<i64>>, NoMemory>
    ensures { IfOk result (λ made. made.items ≡ map (λ k. filter_rows mask.now (levelled (length mask.now) (cells_at arrays.now k))) from.now) }
{
    let mut made = Vec::with_capacity(alloc, from.len())?;
    for at in from {
        let cells = selected(alloc, mask, cells_at(arrays, *at))?;
        made.push(Sequence::from_vec(cells))?;
    }
    Ok(made)
}

/// Makes columns of the own rows of arrays at which the mask is 1.
#[tactic(auto, unfolding(crate::specs::Frames::select_data))]
pub fn do_select(
    store: &mut Store,
    to: &Target,
    mask: u32,
    from: &Sequence<u32>,
) -> Result<Local, NoMemory>
    requires { store.old.position + 1 < 2 ^ 32 }
    ensures told { IfOk result (λ l. Tells (lifted (select_data to.now mask from.now (data_of store.old)) store.old) l store.old store.new) }
    ensures err { OnErr result (store.new ≡ store.old) }
    ensures number { store.new.number ≡ store.old.number }
    ensures ranks { store.new.ranks ≡ store.old.ranks }
{
    let alloc = store.words.alloc();
    let wanted = ones(alloc, cells_at(&store.arrays, mask))?;
    let made = selected_columns(alloc, &store.arrays, wanted.as_slice(), from.as_slice())?;
    put_columns(store, to, made)?;
    store.position += 1;
    Ok(Local::Moved)
}
