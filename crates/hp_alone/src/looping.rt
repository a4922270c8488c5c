// Loops, of which each rank does its own places.

ghost use Rattle.std.specs.Prelude.{◌≡◌, ℕ, List, IfOk};
ghost use Rattle.std.specs.List.{AllByRecursion};
ghost use Rattle.hp_spmd.specs.declared.code.Code.{Code};
ghost use Rattle.hp_spmd.specs.declared.instr.Instr.TheVariants as instr;
ghost use Rattle.hp_spmd.specs.Spread.{SpreadsWell};
ghost use Rattle.hp_snippet.specs.Moves.{Moves};
ghost use Rattle.hp_snippet.specs.Promises.{IsStraight, IsWork, LeavesShared, Performs};
ghost use Rattle.hp_alone.specs.OwnLoops.{HasFolds, MayLoop, MayLoopWhole, loop_code, loop_writes, looped, looped_in_parts};

use crate::single::single;
use hp_spmd::instr::{Instr, Loop};
use hp_word::place::NoMemory;
use hp_word::sequence::Sequence;
use std::alloc::Global;

/// A loop over a vector. Its outs become the vectors of the lets' values at all places, each rank's pieces cut as the leader's;
/// or all ranks trap with the first trap of the whole. A fold word becomes on each rank the fold of the values at the rank's own
/// places: of all where the leader is whole on each rank, and else the ranks need not agree on it. All else that a rank has
/// stays. `NoMemory` for want of memory alone.
#[tactic(auto, using(crate::proofs::LoopedWhole::own_loop_straight, crate::proofs::LoopedWhole::own_loop_work))]
pub fn own_loop(alloc: Global, body: Loop) -> Result<Sequence<Instr>, NoMemory>
    ensures exact { IfOk result (λ list. list ≡ loop_code body) }
    ensures does { IfOk result (λ list. (around : List ℕ) → Performs (MayLoop body around) (looped_in_parts body around) (loop_writes body) list) }
    ensures folds { IfOk result (λ list. (around : List ℕ) → Moves (HasFolds body around) (MayLoop body around) (looped_in_parts body around) (loop_writes body) list) }
    ensures whole { IfOk result (λ list. (around : List ℕ) → Performs (MayLoopWhole body around) (looped body around) (loop_writes body) list) }
    ensures form { IfOk result IsStraight }
    ensures shares { IfOk result (λ list. (code : Code) → SpreadsWell code.arrays (instr.Loop body) → AllByRecursion (LeavesShared code) list) }
    ensures work { IfOk result (IsWork 1) }
{
    let list = single(alloc, Instr::Loop(body))?;
    Ok(list)
}
