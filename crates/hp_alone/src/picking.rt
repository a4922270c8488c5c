// Elements at the positions that an array says.

ghost use Rattle.std.specs.Prelude.{◌≡◌, [], ◌∷◌, IfOk};
ghost use Rattle.std.specs.List.{AllByRecursion};
ghost use Rattle.hp_spmd.specs.declared.code.Code.{Code};
ghost use Rattle.hp_spmd.specs.Spread.{LiesAs};
ghost use Rattle.hp_spmd.specs.Store.{dist_at};
ghost use Rattle.hp_snippet.specs.Moves.{arrays_alone};
ghost use Rattle.hp_snippet.specs.Promises.{IsStraight, IsWork, LeavesShared, Performs};
ghost use Rattle.hp_alone.specs.Picking.{MayPick, elements_picked, pick_code};

use crate::single::single;
use hp_spmd::instr::Instr;
use hp_word::place::{NoMemory, Place};
use hp_word::sequence::Sequence;
use std::alloc::Global;

/// The array `to` has the elements of an array, which is whole on each rank, at the positions that the array `index` says, and
/// lies as that one; or there is a trap at `at`, that of the first of all positions at which there is no element. Each rank
/// picks its own part. All else that a rank has stays. `NoMemory` for want of memory alone.
#[tactic(auto, using(crate::proofs::Picked::pick_straight, crate::proofs::Picked::pick_work))]
pub fn pick(
    alloc: Global,
    to: u32,
    array: u32,
    index: u32,
    at: Place,
) -> Result<Sequence<Instr>, NoMemory>
    ensures exact { IfOk result (λ list. list ≡ pick_code to array index at) }
    ensures does { IfOk result (λ list. Performs (MayPick to array index) (elements_picked to array index at) (arrays_alone (to ∷ [])) list) }
    ensures form { IfOk result IsStraight }
    ensures shares { IfOk result (λ list. (code : Code) → LiesAs (dist_at code.arrays index) (dist_at code.arrays to) → AllByRecursion (LeavesShared code) list) }
    ensures work { IfOk result (IsWork 1) }
{
    let list = single(
        alloc,
        Instr::Pick {
            to,
            array,
            index,
            at,
        },
    )?;
    Ok(list)
}
