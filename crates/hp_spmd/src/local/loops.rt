// What Loop does to a store.

ghost use Rattle.std.specs.Prelude.{◌≡◌, ◌+◌, ◌<◌, ◌^◌, ℕ, ℤ, List, [], ◌∷◌, ◌++◌, length, IfOk, OnOk, OnErr, map};
ghost use Rattle.hp_word.specs.LoopRules.{rows_below};
ghost use Rattle.hp_spmd.specs.Loops.{lets_at, loop_data, made_of};
ghost use Rattle.hp_spmd.specs.Next.{Tells, lifted, moved};
ghost use Rattle.hp_spmd.specs.LoopParts.{IsMadeOf, MakesAll, cut_piece, let_fold, with_pieces, with_words};
ghost use Rattle.hp_spmd.specs.Store.{data_of, piece_at, with_data};

use crate::instr::{Folding, Loop, Out};
use crate::local::Local;
use crate::local::sources::LoopSources;
use crate::local::words::put;
use crate::store::{Piece, Store};
use hp_kernels::loops::made::{LetFold, Made as Columns};
use hp_kernels::loops::run_loop;
use hp_word::place::{NoMemory, Trap};
use hp_word::sequence::Sequence;
use std::alloc::Global;

/// What a loop makes: a piece for each out, and a word for each fold.
#[derive(Drop)]
pub struct Made {
    pub pieces: Vec<Piece>,
    pub words: Vec<i64>,
}

/// Computes the lets at each of the rank's own places of the leader, and only then sets the outs and the fold
/// words.
#[tactic(auto, unfolding(crate::specs::Loops::loop_data))]
pub fn do_loop(store: &mut Store, of: &Loop) -> Result<Local, NoMemory>
    requires { store.old.position + 1 < 2 ^ 32 }
    ensures told { IfOk result (λ l. Tells (lifted (loop_data of.now (data_of store.old)) store.old) l store.old store.new) }
    ensures err { OnErr result (store.new ≡ store.old) }
    ensures number { store.new.number ≡ store.old.number }
    ensures ranks { store.new.ranks ≡ store.old.ranks }
{
    match all_made(store, of)? {
        Err(trap) => Ok(Local::Trapped(trap.at, trap.kind)),
        Ok(made) => {
            finish(store, of, made);
            Ok(Local::Moved)
        }
    }
}

// What is made of the rows at all own places of the leader, or the first trap.
fn all_made(store: &Store, of: &Loop) -> Result<Result<Made, Trap>, NoMemory>
    ensures { let leader = piece_at store.now.arrays of.now.leader in
        IfOk result (λ made. MakesAll of.now leader.rows leader.cuts (rows_below (lets_at of.now (data_of store.now)) (length leader.cells)) made) }
{
    let arrays = store.arrays.as_slice();
    let leader = of.leader as usize;
    if leader < arrays.len() {
        let leader = &arrays[leader];
        made_below(
            store,
            of,
            leader.rows,
            leader.cuts.as_slice(),
            leader.cells.len(),
        )
    } else {
        made_below(store, of, 1, &[], 0)
    }
}

// What is made of the rows at so many places, or the first trap.
fn made_below(
    store: &Store,
    of: &Loop,
    height: u64,
    cuts: &[u64],
    count: usize,
) -> Result<Result<Made, Trap>, NoMemory>
    ensures { IfOk result (λ made. MakesAll of.now height cuts.now (rows_below (lets_at of.now (data_of store.now)) count) made) }
{
    let alloc = store.words.alloc();
    let values = out_values(alloc, of.outs.as_slice())?;
    let folds = let_folds(alloc, of.folds.as_slice())?;
    let sources = LoopSources { store, of };
    let lets = of.lets.as_slice();
    match run_loop(
        alloc,
        lets,
        &sources,
        count,
        values.as_slice(),
        folds.as_slice(),
    )? {
        Ok(made) => Ok(Ok(as_pieces(alloc, height, cuts, made)?)),
        Err(trap) => Ok(Err(trap)),
    }
}

// The lets whose values the outs become.
fn out_values(alloc: Global, outs: &[Out]) -> Result<Vec<u32>, NoMemory>
    ensures { IfOk result (λ values. values.items ≡ map (λ o. o.value) outs.now) }
{
    let mut values = Vec::with_capacity(alloc, outs.len())?;
    for out in outs {
        values.push(out.value)?;
    }
    Ok(values)
}

// The folds, without the words that they become.
fn let_folds(alloc: Global, folds: &[Folding]) -> Result<Vec<LetFold>, NoMemory>
    ensures { IfOk result (λ made. made.items ≡ map let_fold folds.now) }
{
    let mut made = Vec::with_capacity(alloc, folds.len())?;
    for folding in folds {
        made.push(LetFold {
            kind: folding.kind,
            value: folding.value,
        })?;
    }
    Ok(made)
}

// The columns as pieces with these rows and cuts.
fn as_pieces(alloc: Global, height: u64, cuts: &[u64], made: Columns) -> Result<Made, NoMemory>
    ensures pieces { IfOk result (λ it. it.pieces.items ≡ map (λ c. cut_piece height cuts.now c.items) made.columns.items) }
    ensures words { IfOk result (λ it. it.words.items ≡ made.words.items) }
{
    let Columns { columns, words } = made;
    Ok(Made {
        pieces: cut_pieces(alloc, height, cuts, columns)?,
        words,
    })
}

// Each column as a piece with these rows and cuts.
fn cut_pieces(
    alloc: Global,
    height: u64,
    cuts: &[u64],
    columns: Vec<Vec<i64>>,
) -> Result<Vec<Piece>, NoMemory>
    ensures { IfOk result (λ pieces. pieces.items ≡ map (λ c. cut_piece height cuts.now c.items) columns.items) }
{
    let mut pieces = Vec::with_capacity(alloc, columns.len())?;
    for cells in columns {
        pieces.push(Piece {
            rows: height,
            cuts: Sequence::from_slice(alloc, cuts)?,
            cells: Sequence::from_vec(cells),
        })?;
    }
    Ok(pieces)
}

// Writes what was made, and goes to the next instruction.
fn finish(store: &mut Store, of: &Loop, made: Made)
    requires { store.old.position + 1 < 2 ^ 32 }
    ensures told { let leader = piece_at store.old.arrays of.now.leader in
        (rows : List (List ℤ)) → IsMadeOf of.now leader.rows leader.cuts rows made → store.new ≡ with_data (made_of of.now rows (data_of store.old)) (moved store.old) }
    ensures number { store.new.number ≡ store.old.number }
    ensures ranks { store.new.ranks ≡ store.old.ranks }
{
    let Made { pieces, words } = made;
    put_words(&mut store.words, &of.folds, words.as_slice());
    put_pieces(&mut store.arrays, &of.outs, pieces);
    store.position += 1;
}

// Sets the array of each out to its piece.
fn put_pieces(arrays: &mut Sequence<Piece>, outs: &Sequence<Out>, pieces: Vec<Piece>)
    ensures { arrays.new ≡ with_pieces outs.now pieces.items arrays.old }
{
    let outs = outs.as_slice();
    let mut k = 0;
    for piece in pieces {
        if k < outs.len() {
            put(arrays, outs[k].array, piece);
            k += 1;
        }
    }
}

// Sets the word of each fold.
fn put_words(words: &mut Sequence<i64>, folds: &Sequence<Folding>, made: &[i64])
    ensures { words.new ≡ with_words folds.now made.now words.old }
{
    for (k, folding) in folds.as_slice().iter().enumerate() {
        if k < made.len() {
            put(words, folding.word, made[k]);
        }
    }
}
