// One vector behind another, both whole on each rank.

ghost use Rattle.std.specs.Prelude.{◌≡◌, [], ◌∷◌, IfOk};
ghost use Rattle.std.specs.List.{AllByRecursion};
ghost use Rattle.hp_lattice.specs.declared.dist.Dist.TheVariants.{Rep};
ghost use Rattle.hp_spmd.specs.declared.code.Code.{Code};
ghost use Rattle.hp_spmd.specs.Store.{dist_at};
ghost use Rattle.hp_snippet.specs.Moves.{arrays_alone};
ghost use Rattle.hp_snippet.specs.Promises.{IsStraight, IsWork, LeavesShared, Performs};
ghost use Rattle.hp_alone.specs.Joining.{MayJoin, join_code, joined};

use crate::single::pair;
use hp_spmd::instr::{CheckRule, Instr};
use hp_word::place::{NoMemory, Place};
use hp_word::sequence::Sequence;
use std::alloc::Global;

/// The look at the lengths, and the instruction that joins.
fn instructions(
    alloc: Global,
    to: u32,
    left: u32,
    right: u32,
    at: Place,
) -> Result<Sequence<Instr>, NoMemory>
    ensures { IfOk result (λ list. list ≡ join_code to left right at) }
{
    let look = Instr::Check {
        arrays: Sequence::from_slice(alloc, &[left, right])?,
        rule: CheckRule::Fits,
        at,
    };
    let join = Instr::Stack {
        to,
        from: Sequence::from_slice(alloc, &[left, right])?,
        flat: true,
        at,
    };
    pair(alloc, look, join)
}

/// The array `to` has the vector `left` with the vector `right` behind it; all are whole on each rank. Where both together have
/// more elements than an array may have, all ranks trap at `at`. All else that a rank has stays. `NoMemory` for want of memory
/// alone.
#[tactic(auto, using(crate::proofs::Joined::join_straight, crate::proofs::Joined::join_work))]
pub fn join(
    alloc: Global,
    to: u32,
    left: u32,
    right: u32,
    at: Place,
) -> Result<Sequence<Instr>, NoMemory>
    ensures exact { IfOk result (λ list. list ≡ join_code to left right at) }
    ensures does { IfOk result (λ list. Performs (MayJoin to left right) (joined to left right at) (arrays_alone (to ∷ [])) list) }
    ensures form { IfOk result IsStraight }
    ensures shares { IfOk result (λ list. (code : Code) → dist_at code.arrays to ≡ Rep → AllByRecursion (LeavesShared code) list) }
    ensures work { IfOk result (IsWork 3) }
{
    let list = instructions(alloc, to, left, right, at)?;
    Ok(list)
}
