// What a loop makes of the rows of its lets.

ghost use Rattle.std.specs.Prelude.{◌≡◌, ◌++◌, ◌≤◌, ℕ, ℤ, List, [], map, replicate, length, IfOk, OnOk};
ghost use Rattle.hp_word.specs.Folds.{fold_of};
ghost use Rattle.hp_word.specs.LoopRules.{column_of};
ghost use Rattle.hp_kernels.specs.LoopColumns.{AreLong, IsLong, changed_by, first_cells, first_rows, joined_with, with_cells};
ghost use Rattle.hp_kernels.specs.Loops.{IsMadeOf, fold_word};

use crate::loops::columns::Operand;
use crate::loops::values::earlier;
use hp_word::fold::{FoldKind, empty, fold, fold_items};
use hp_word::place::NoMemory;
use std::alloc::Global;

/// A fold of the values of a let, by its number.
#[derive(Clone, Copy)]
pub struct LetFold {
    pub kind: FoldKind,
    pub value: u32,
}

/// What a loop makes: a column for each let that is asked for, and a word for each fold.
#[derive(Drop)]
pub struct Made {
    pub columns: Vec<Vec<i64>>,
    pub words: Vec<i64>,
}

// For each let that is asked for a column of no cells, with room for so many.
fn empty_columns(alloc: Global, count: usize, outs: &[u32]) -> Result<Vec<Vec<i64>>, NoMemory>
    ensures { IfOk result (λ columns. map (λ c. c.items) columns.items ≡ map (λ k. column_of k []) outs.now) }
{
    let mut columns = Vec::with_capacity(alloc, outs.len())?;
    for _out in outs {
        columns.push(Vec::with_capacity(alloc, count)?)?;
    }
    Ok(columns)
}

// For each fold the word of no values.
fn empty_words(alloc: Global, folds: &[LetFold]) -> Result<Vec<i64>, NoMemory>
    ensures { IfOk result (λ words. words.items ≡ map (fold_word []) folds.now) }
{
    let mut words = Vec::with_capacity(alloc, folds.len())?;
    for folding in folds {
        words.push(empty(folding.kind))?;
    }
    Ok(words)
}

/// What is made of no rows, with room for so many.
pub(crate) fn nothing_made(
    alloc: Global,
    count: usize,
    outs: &[u32],
    folds: &[LetFold],
) -> Result<Made, NoMemory>
    ensures { IfOk result (IsMadeOf outs.now folds.now []) }
{
    Ok(Made {
        columns: empty_columns(alloc, count, outs)?,
        words: empty_words(alloc, folds)?,
    })
}

// Adds so many times one word.
#[tactic(auto, using(std::proofs::lemmas::List::replicate_more))]
fn add_same(cells: &mut Vec<i64>, word: i64, places: usize) -> Result<(), NoMemory>
    ensures { OnOk result (cells.new.items ≡ cells.old.items ++ replicate places word) }
{
    for _place in 0..places {
        cells.push(word)?;
    }
    Ok(())
}

// Adds the words of a column at the first places.
#[tactic(auto, using(crate::proofs::BlockLemmas::same_cells, crate::proofs::BlockLemmas::taken_cells))]
fn add_cells(cells: &mut Vec<i64>, column: &Operand, places: usize) -> Result<(), NoMemory>
    requires { IsLong places column.now }
    ensures { OnOk result (cells.new.items ≡ cells.old.items ++ first_cells places column.now) }
{
    match column {
        Operand::Same(word) => add_same(cells, *word, places)?,
        Operand::Cells(others) => cells.extend_from_slice(&others[..places])?,
        Operand::Made(others) => cells.extend_from_slice(&others.as_slice()[..places])?,
    }
    Ok(())
}

// The fold of so many times one word.
#[tactic(auto, using(crate::proofs::BlockLemmas::fold_steps))]
fn fold_same(kind: FoldKind, word: i64, places: usize) -> i64
    ensures { result ≡ fold_of kind (replicate places word) }
{
    let mut so_far = empty(kind);
    for _place in 0..places {
        so_far = fold(kind, so_far, word);
    }
    so_far
}

// The fold of the words of a column at the first places.
#[tactic(auto, using(crate::proofs::BlockLemmas::same_cells, crate::proofs::BlockLemmas::taken_cells))]
fn fold_column(kind: FoldKind, column: &Operand, places: usize) -> i64
    requires { IsLong places column.now }
    ensures { result ≡ fold_of kind (first_cells places column.now) }
{
    match column {
        Operand::Same(word) => fold_same(kind, *word, places),
        Operand::Cells(others) => fold_items(kind, &others[..places]),
        Operand::Made(others) => fold_items(kind, &others.as_slice()[..places]),
    }
}

// Adds the cells of a block's rows to the column of a let.
#[tactic(auto, using(crate::proofs::BlockLemmas::let_cells))]
fn add_let(
    cells: &mut Vec<i64>,
    kept: &[Operand],
    value: u32,
    places: usize,
) -> Result<(), NoMemory>
    requires { AreLong places kept.now }
    ensures { OnOk result (cells.new.items ≡ with_cells (first_rows places kept.now) value cells.old.items) }
{
    add_cells(cells, &earlier(kept, value), places)
}

// The fold of the cells of a block's rows of a let.
#[tactic(auto, using(crate::proofs::BlockLemmas::let_cells))]
fn fold_let(kind: FoldKind, kept: &[Operand], value: u32, places: usize) -> i64
    requires { AreLong places kept.now }
    ensures { result ≡ fold_of kind (column_of value (first_rows places kept.now)) }
{
    fold_column(kind, &earlier(kept, value), places)
}

// Adds the cells of a block's rows to each column.
fn add_columns(
    columns: &mut [Vec<i64>],
    outs: &[u32],
    kept: &[Operand],
    places: usize,
) -> Result<(), NoMemory>
    requires { AreLong places kept.now }
    ensures { OnOk result (map (λ c. c.items) columns.new ≡ changed_by (with_cells (first_rows places kept.now)) outs.now (map (λ c. c.items) columns.old)) }
{
    for (k, out) in outs.iter().enumerate() {
        if k < columns.len() {
            add_let(&mut columns[k], kept, *out, places)?;
        }
    }
    Ok(())
}

// Joins the folds of a block's rows to the words.
fn join_words(words: &mut [i64], folds: &[LetFold], kept: &[Operand], places: usize)
    requires { AreLong places kept.now }
    ensures { words.new ≡ changed_by (joined_with (first_rows places kept.now)) folds.now words.old }
{
    for (k, folding) in folds.iter().enumerate() {
        if k < words.len() {
            let word = fold_let(folding.kind, kept, folding.value, places);
            words[k] = fold(folding.kind, words[k], word);
        }
    }
}

/// Adds the rows of a block to what was made of the rows before it.
pub(crate) fn add_block(
    made: &mut Made,
    outs: &[u32],
    folds: &[LetFold],
    kept: &[Operand],
    places: usize,
) -> Result<(), NoMemory>
    requires { AreLong places kept.now }
    ensures { OnOk result ((rows : List (List ℤ)) → IsMadeOf outs.now folds.now rows made.old → IsMadeOf outs.now folds.now (rows ++ first_rows places kept.now) made.new) }
{
    add_columns(made.columns.as_mut_slice(), outs, kept, places)?;
    join_words(made.words.as_mut_slice(), folds, kept, places);
    Ok(())
}
