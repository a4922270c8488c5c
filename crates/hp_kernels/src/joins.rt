// The rows that a join pairs.

ghost use Rattle.std.specs.Prelude.{◌≡◌, [], ◌∷◌, ◌++◌, ◌+◌, ◌<◌, ◌≤◌, length, ⊤, IfOk, OnOk, MatchResult};
ghost use Rattle.hp_word.specs.Lengths.{longest};
ghost use Rattle.hp_word.specs.RowRules.{matches_of, pairs_from_0};
ghost use Rattle.hp_kernels.specs.KeyRows.{HasRowsOf};
ghost use Rattle.hp_kernels.specs.declared.joins.KernelError.TheVariants as why;

use crate::key_rows::KeyRows;
use hp_word::lengths::LONGEST;
use hp_word::order::RowPlace;
use hp_word::place::NoMemory;
use std::alloc::{AllocFailed, Global};

/// Why rows are not paired.
#[derive(Clone, Copy, PartialEq, Eq, Drop)]
pub enum KernelError {
    /// There are more than 1,048,576 pairs.
    TooMany,
    /// Memory was refused.
    NoMemory,
}

impl From<NoMemory> for KernelError {
    ghost from_gives = { λ _ e. e ≡ why.NoMemory };

    fn from(_error: NoMemory) -> KernelError {
        KernelError::NoMemory
    }
}

impl<T: Drop> From<AllocFailed<T>> for KernelError {
    ghost from_gives = { λ _ e. e ≡ why.NoMemory };

    fn from(_error: AllocFailed<T>) -> KernelError {
        KernelError::NoMemory
    }
}

/// The pairs of rows with equal keys, by left and then by right row.
pub fn join_rows(alloc: Global, left: &[i64], right: &[i64]) -> Result<Vec<RowPlace>, KernelError>
    ensures ok { IfOk result (λ made. made.items ≡ pairs_from_0 left.now right.now) }
    ensures few { OnOk result (length (pairs_from_0 left.now right.now) ≤ longest) }
    ensures many { MatchResult result (λ _. ⊤) (λ e. e ≡ why.TooMany → longest < length (pairs_from_0 left.now right.now)) }
{
    let rows = KeyRows::of(alloc, right)?;
    let mut pairs = Vec::new(alloc);
    for (i, key) in left.iter().enumerate() {
        add_matches(&mut pairs, i as u64, *key, right, &rows)?;
    }
    Ok(pairs)
}

/// Adds the pairs of a left row with the right rows of its key, as long as they are not too many. The right column is
/// read by the clauses alone.
fn add_matches(
    pairs: &mut Vec<RowPlace>,
    left: u64,
    key: i64,
    column: &[i64],
    rows: &KeyRows,
) -> Result<(), KernelError>
    requires { HasRowsOf column.now rows.now }
    ensures ok { OnOk result (pairs.new.items ≡ pairs.old.items ++ matches_of left key 0 column.now) }
    ensures few { OnOk result (length pairs.old.items ≤ longest → length pairs.new.items ≤ longest) }
    ensures many { MatchResult result (λ _. ⊤) (λ e. e ≡ why.TooMany → longest < length pairs.old.items + length (matches_of left key 0 column.now)) }
{
    let mut next = rows.first(key);
    while let Some(right) = next {
        add_pair(pairs, RowPlace { left, right })?;
        next = rows.next(right);
    }
    Ok(())
}

/// Adds a pair, unless there are as many as there may be.
fn add_pair(pairs: &mut Vec<RowPlace>, pair: RowPlace) -> Result<(), KernelError>
    ensures ok { OnOk result (pairs.new.items ≡ pairs.old.items ++ pair ∷ []) }
    ensures few { OnOk result (length pairs.old.items < longest) }
    ensures many { MatchResult result (λ _. ⊤) (λ e. e ≡ why.TooMany → longest ≤ length pairs.old.items) }
{
    if pairs.len() as u64 >= LONGEST {
        return Err(KernelError::TooMany);
    }
    pairs.push(pair)?;
    Ok(())
}
