// Copies of arrays.

ghost use Rattle.std.specs.Prelude.{◌≡◌, IfOk};
ghost use Rattle.std.specs.List.{AllByRecursion};
ghost use Rattle.hp_spmd.specs.declared.code.Code.{Code};
ghost use Rattle.hp_spmd.specs.Spread.{CopyAlike};
ghost use Rattle.hp_snippet.specs.Moves.{arrays_alone, copied};
ghost use Rattle.hp_snippet.specs.Promises.{IsStraight, IsWork, LeavesShared, Performs};
ghost use Rattle.hp_alone.specs.Copying.{MayCopy, copy_code};

use crate::single::single;
use hp_spmd::instr::Instr;
use hp_word::place::NoMemory;
use hp_word::sequence::Sequence;
use std::alloc::Global;

/// Each array of the first list stands for what that of the second in its place stood for, and has its cuts; all are read
/// before one is set. All else that a rank has stays. `NoMemory` for want of memory alone.
#[tactic(auto, using(crate::proofs::Copied::copy_straight, crate::proofs::Copied::copy_work))]
pub fn copy(
    alloc: Global,
    to: &Sequence<u32>,
    from: &Sequence<u32>,
) -> Result<Sequence<Instr>, NoMemory>
    ensures exact { IfOk result (λ list. list ≡ copy_code to.now from.now) }
    ensures does { IfOk result (λ list. Performs (MayCopy to.now from.now) (copied to.now from.now) (arrays_alone to.now) list) }
    ensures form { IfOk result IsStraight }
    ensures shares { IfOk result (λ list. (code : Code) → CopyAlike code.arrays to.now from.now → AllByRecursion (LeavesShared code) list) }
    ensures work { IfOk result (IsWork 1) }
{
    let to = Sequence::from_slice(alloc, to.as_slice())?;
    let from = Sequence::from_slice(alloc, from.as_slice())?;
    let list = single(alloc, Instr::Copy { to, from })?;
    Ok(list)
}
