// A look at the lengths of arrays.

ghost use Rattle.std.specs.Prelude.{◌≡◌, IfOk};
ghost use Rattle.std.specs.List.{AllByRecursion};
ghost use Rattle.hp_spmd.specs.declared.code.Code.{Code};
ghost use Rattle.hp_snippet.specs.Promises.{IsStraight, IsWork, LeavesShared, Performs};
ghost use Rattle.hp_alone.specs.Looking.{MayLook, check_code, looked_at, nothing_written};

use crate::single::single;
use hp_spmd::instr::{CheckRule, Instr};
use hp_word::place::{NoMemory, Place};
use hp_word::sequence::Sequence;
use std::alloc::Global;

/// Where the lengths of these vectors are not as the rule says, all ranks trap at `at`; else nothing changes. `NoMemory` for
/// want of memory alone.
#[tactic(auto, using(crate::proofs::Looked::check_straight, crate::proofs::Looked::check_work))]
pub fn check(
    alloc: Global,
    arrays: &Sequence<u32>,
    rule: CheckRule,
    at: Place,
) -> Result<Sequence<Instr>, NoMemory>
    ensures exact { IfOk result (λ list. list ≡ check_code arrays.now rule at) }
    ensures does { IfOk result (λ list. Performs (MayLook arrays.now) (looked_at arrays.now rule at) nothing_written list) }
    ensures form { IfOk result IsStraight }
    ensures shares { IfOk result (λ list. (code : Code) → AllByRecursion (LeavesShared code) list) }
    ensures work { IfOk result (IsWork 1) }
{
    let arrays = Sequence::from_slice(alloc, arrays.as_slice())?;
    let list = single(alloc, Instr::Check { arrays, rule, at })?;
    Ok(list)
}
