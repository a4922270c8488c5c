// Folds of words, by their kinds.

ghost use Rattle.std.specs.Prelude.{◌≡◌, ℤ, List, [], ◌∷◌, ◌++◌, map, flat_map, All, FitsSigned};
ghost use Rattle.std.specs.Int.{w64};
ghost use Rattle.hp_word.specs.declared.fold.FoldKind.TheVariants as kinds;
ghost use Rattle.hp_word.specs.declared.word.CalcOp.TheVariants as op;
ghost use Rattle.hp_word.specs.Words.{calculated};
ghost use Rattle.hp_word.specs.declared.fold.FoldKind.{FoldKind};
ghost use Rattle.hp_word.specs.Folds.{fold_of, joined, unit_of};

use crate::word::{add, mul, word_of};

/// A fold of a list of words into one.
#[derive(Clone, Copy, Debug, PartialEq, Eq)]
pub enum FoldKind {
    Sum,
    Prod,
    Min,
    Max,
    Any,
    All,
}

/// The fold of two words; of a sum or a product the wrapped one, and of `Any` and `All` 0 or 1.
pub fn fold(kind: FoldKind, a: i64, b: i64) -> i64
    ensures { result ≡ joined kind a b }
{
    match kind {
        FoldKind::Sum => add(a, b),
        FoldKind::Prod => mul(a, b),
        FoldKind::Min => a.min(b),
        FoldKind::Max => a.max(b),
        FoldKind::Any => word_of(a != 0 || b != 0),
        FoldKind::All => word_of(a != 0 && b != 0),
    }
}

/// The fold of no words.
#[tactic(auto, using(crate::proofs::FoldLemmas::fold_of_none))]
pub fn empty(kind: FoldKind) -> i64
    ensures value { result ≡ unit_of kind }
    ensures none { result ≡ fold_of kind [] }
{
    match kind {
        FoldKind::Sum => 0,
        FoldKind::Prod => 1,
        FoldKind::Min => i64::MAX,
        FoldKind::Max => i64::MIN,
        FoldKind::Any => 0,
        FoldKind::All => 1,
    }
}

/// The fold of all items, from left to right; of a sum or a product the whole one, wrapped once.
#[tactic(auto, using(crate::proofs::FoldLemmas::fold_steps))]
pub fn fold_items(kind: FoldKind, items: &[i64]) -> i64
    ensures { result ≡ fold_of kind items.now }
{
    let mut so_far = empty(kind);
    for item in items {
        so_far = fold(kind, so_far, *item);
    }
    so_far
}

/// Says of every fold that a whole list's is that of its parts, however it is cut, and that it fits 64 bits; and that
/// `Any` and `All` join two words as `Or` and `And` do. Does nothing.
#[tactic(auto, using(crate::proofs::FoldLemmas::fold_laws))]
pub fn folds_by_parts()
    ensures none { (kind : FoldKind) → fold_of kind [] ≡ unit_of kind }
    ensures one_more { (kind : FoldKind) (xs : List ℤ) (x : ℤ) → fold_of kind (xs ++ x ∷ []) ≡ joined kind (fold_of kind xs) x }
    ensures parts { (kind : FoldKind) (xs ys : List ℤ) → fold_of kind (xs ++ ys) ≡ joined kind (fold_of kind xs) (fold_of kind ys) }
    ensures pieces { (kind : FoldKind) (pieces : List (List ℤ)) → fold_of kind (map (fold_of kind) pieces) ≡ fold_of kind (flat_map (λ piece. piece) pieces) }
    ensures fits { (kind : FoldKind) (xs : List ℤ) → All (FitsSigned w64) xs → FitsSigned w64 (fold_of kind xs) }
    ensures any { (a b : ℤ) → calculated op.Or a b ≡ Ok (joined kinds.Any a b) }
    ensures all { (a b : ℤ) → calculated op.And a b ≡ Ok (joined kinds.All a b) }
{}
