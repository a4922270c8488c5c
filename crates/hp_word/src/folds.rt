// Folds as types, for code that is generic over the fold.

ghost use Rattle.std.specs.Prelude.{◌≡◌, ℤ, Bool};
ghost use Rattle.hp_word.specs.declared.fold.FoldKind.TheVariants as kind;
ghost use Rattle.hp_word.specs.Folds.{joined, unit_of};
ghost use Rattle.hp_word.specs.FoldLaws.{FoldLaws, is_word, is_truth};
ghost use Rattle.hp_word.specs.LawfulFolds.{sum_laws, prod_laws, min_laws, max_laws, any_laws, all_laws};

use crate::fold::{FoldKind, empty, fold};

/// A fold that gives one answer however a list of allowed words is cut into pieces.
pub trait Fold {
    ghost unit: { ℤ };

    ghost op: { ℤ → ℤ → ℤ };

    ghost is_allowed: { ℤ → Bool };

    /// The fold of no words.
    fn identity() -> i64
        ensures { result ≡ unit };

    /// The fold of two words.
    fn join(a: i64, b: i64) -> i64
        ensures { result ≡ op a b };

    /// Whether the laws speak of this word.
    fn allowed(a: i64) -> bool
        ensures { result ≡ is_allowed a };

    ghost laws: { FoldLaws unit op is_allowed };
}

/// Sums of 64-bit words, which wrap.
pub struct Sum;

impl Fold for Sum {
    ghost unit = { unit_of kind.Sum };

    ghost op = { joined kind.Sum };

    ghost is_allowed = { is_word };

    ghost laws = { sum_laws };

    fn identity() -> i64 {
        empty(FoldKind::Sum)
    }

    fn join(a: i64, b: i64) -> i64 {
        fold(FoldKind::Sum, a, b)
    }

    fn allowed(_a: i64) -> bool {
        true
    }
}

/// Products of 64-bit words, which wrap.
pub struct Prod;

impl Fold for Prod {
    ghost unit = { unit_of kind.Prod };

    ghost op = { joined kind.Prod };

    ghost is_allowed = { is_word };

    ghost laws = { prod_laws };

    fn identity() -> i64 {
        empty(FoldKind::Prod)
    }

    fn join(a: i64, b: i64) -> i64 {
        fold(FoldKind::Prod, a, b)
    }

    fn allowed(_a: i64) -> bool {
        true
    }
}

/// The least word.
pub struct Min;

impl Fold for Min {
    ghost unit = { unit_of kind.Min };

    ghost op = { joined kind.Min };

    ghost is_allowed = { is_word };

    ghost laws = { min_laws };

    fn identity() -> i64 {
        empty(FoldKind::Min)
    }

    fn join(a: i64, b: i64) -> i64 {
        fold(FoldKind::Min, a, b)
    }

    fn allowed(_a: i64) -> bool {
        true
    }
}

/// The greatest word.
pub struct Max;

impl Fold for Max {
    ghost unit = { unit_of kind.Max };

    ghost op = { joined kind.Max };

    ghost is_allowed = { is_word };

    ghost laws = { max_laws };

    fn identity() -> i64 {
        empty(FoldKind::Max)
    }

    fn join(a: i64, b: i64) -> i64 {
        fold(FoldKind::Max, a, b)
    }

    fn allowed(_a: i64) -> bool {
        true
    }
}

/// Whether some truth value is 1.
pub struct Any;

impl Fold for Any {
    ghost unit = { unit_of kind.Any };

    ghost op = { joined kind.Any };

    ghost is_allowed = { is_truth };

    ghost laws = { any_laws };

    fn identity() -> i64 {
        empty(FoldKind::Any)
    }

    fn join(a: i64, b: i64) -> i64 {
        fold(FoldKind::Any, a, b)
    }

    fn allowed(a: i64) -> bool {
        a == 0 || a == 1
    }
}

/// Whether every truth value is 1.
pub struct All;

impl Fold for All {
    ghost unit = { unit_of kind.All };

    ghost op = { joined kind.All };

    ghost is_allowed = { is_truth };

    ghost laws = { all_laws };

    fn identity() -> i64 {
        empty(FoldKind::All)
    }

    fn join(a: i64, b: i64) -> i64 {
        fold(FoldKind::All, a, b)
    }

    fn allowed(a: i64) -> bool {
        a == 0 || a == 1
    }
}
