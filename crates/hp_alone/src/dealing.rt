// Arrays of which each rank makes its own part.

ghost use Rattle.std.specs.Prelude.{◌≡◌, [], ◌∷◌, IfOk};
ghost use Rattle.std.specs.List.{AllByRecursion};
ghost use Rattle.hp_spmd.specs.declared.code.Code.{Code};
ghost use Rattle.hp_snippet.specs.Moves.{arrays_alone};
ghost use Rattle.hp_snippet.specs.Promises.{IsStraight, IsWork, LeavesShared, Performs};
ghost use Rattle.hp_alone.specs.Dealing.{fill_code, filled_array, range_code, ranged_array};
ghost use Rattle.hp_alone.specs.Scalars.{HaveValues};

use crate::single::single;
use hp_spmd::instr::Instr;
use hp_word::place::{NoMemory, Place};
use hp_word::sequence::Sequence;
use std::alloc::Global;

/// The array `to` becomes a vector that has the word `value` as often as the word `count` says; or all ranks trap at `at`. Each
/// rank makes its own part. All else that a rank has stays. `NoMemory` for want of memory alone.
#[tactic(auto, using(crate::proofs::Dealt::fill_straight, crate::proofs::Dealt::fill_work))]
pub fn fill(
    alloc: Global,
    to: u32,
    value: u32,
    count: u32,
    at: Place,
) -> Result<Sequence<Instr>, NoMemory>
    ensures exact { IfOk result (λ list. list ≡ fill_code to value count at) }
    ensures does { IfOk result (λ list. Performs (HaveValues value count) (filled_array to value count at) (arrays_alone (to ∷ [])) list) }
    ensures form { IfOk result IsStraight }
    ensures shares { IfOk result (λ list. (code : Code) → AllByRecursion (LeavesShared code) list) }
    ensures work { IfOk result (IsWork 1) }
{
    let list = single(
        alloc,
        Instr::Fill {
            to,
            value,
            count,
            at,
        },
    )?;
    Ok(list)
}

/// The array `to` becomes the vector of the numbers from the word `first` up to the word `last`; or all ranks trap at `at`. Each
/// rank makes its own part. All else that a rank has stays. `NoMemory` for want of memory alone.
#[tactic(auto, using(crate::proofs::Dealt::range_straight, crate::proofs::Dealt::range_work))]
pub fn range(
    alloc: Global,
    to: u32,
    first: u32,
    last: u32,
    at: Place,
) -> Result<Sequence<Instr>, NoMemory>
    ensures exact { IfOk result (λ list. list ≡ range_code to first last at) }
    ensures does { IfOk result (λ list. Performs (HaveValues first last) (ranged_array to first last at) (arrays_alone (to ∷ [])) list) }
    ensures form { IfOk result IsStraight }
    ensures shares { IfOk result (λ list. (code : Code) → AllByRecursion (LeavesShared code) list) }
    ensures work { IfOk result (IsWork 1) }
{
    let list = single(
        alloc,
        Instr::Range {
            to,
            first,
            last,
            at,
        },
    )?;
    Ok(list)
}
