// Running sums of an array that is whole on each rank.

ghost use Rattle.std.specs.Prelude.{◌≡◌, IfOk};
ghost use Rattle.std.specs.List.{AllByRecursion};
ghost use Rattle.hp_spmd.specs.declared.code.Code.{Code};
ghost use Rattle.hp_spmd.specs.Spread.{LiesAs};
ghost use Rattle.hp_spmd.specs.Store.{dist_at};
ghost use Rattle.hp_snippet.specs.Promises.{IsStraight, IsWork, LeavesShared, Performs};
ghost use Rattle.hp_alone.specs.Summing.{MaySum, sums_code, sums_made, sums_written};

use crate::single::pair;
use hp_spmd::instr::Instr;
use hp_word::place::NoMemory;
use hp_word::sequence::Sequence;
use std::alloc::Global;

/// The array `to` has the running sums of the array `from`, wrapped; both are whole on each rank. The word `part` has the sum
/// of all and the word `start` is 0. All else that a rank has stays. `NoMemory` for want of memory alone.
#[tactic(auto, using(crate::proofs::Summed::sums_straight, crate::proofs::Summed::sums_work))]
pub fn running_sums(
    alloc: Global,
    to: u32,
    from: u32,
    part: u32,
    start: u32,
) -> Result<Sequence<Instr>, NoMemory>
    ensures exact { IfOk result (λ list. list ≡ sums_code to from part start) }
    ensures does { IfOk result (λ list. Performs (MaySum to from) (sums_made to from part start) (sums_written to part start) list) }
    ensures form { IfOk result IsStraight }
    ensures shares { IfOk result (λ list. (code : Code) → LiesAs (dist_at code.arrays from) (dist_at code.arrays to) → AllByRecursion (LeavesShared code) list) }
    ensures work { IfOk result (IsWork 2) }
{
    let zero = Instr::Const {
        to: start,
        value: 0,
    };
    let sums = Instr::Scan {
        to,
        from,
        start,
        part,
    };
    let list = pair(alloc, zero, sums)?;
    Ok(list)
}
