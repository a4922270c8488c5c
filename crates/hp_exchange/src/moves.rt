// Arrays that get other cuts, or become whole on each rank.

ghost use Rattle.std.specs.Prelude.{◌≡◌, ◌≤◌, [], ◌∷◌, IfOk, length};
ghost use Rattle.std.specs.List.{AllByRecursion};
ghost use Rattle.hp_spmd.specs.declared.code.Code.{Code as SpecCode};
ghost use Rattle.hp_spmd.specs.declared.instr.Need.TheVariants.{Like, Blocks, Whole};
ghost use Rattle.hp_snippet.specs.Promises.{IsStraight, IsWork, LeavesShared};
ghost use Rattle.hp_exchange.specs.Ranges.{Copies, Delivers, MayAlign, MayBalance, MayGather, move_code};

use hp_spmd::instr::{Instr, Need, Packing, Unpacking};
use hp_word::place::NoMemory;
use hp_word::sequence::Sequence;
use std::alloc::Global;

/// One exchange, by which each rank gets what it needs of these arrays, in others, one for one.
fn moves(alloc: Global, arrays: &[u32], to: &[u32], need: Need) -> Result<Sequence<Instr>, NoMemory>
    ensures { IfOk result (λ list. list ≡ move_code to.now arrays.now need) }
{
    let mut list = Sequence::new(alloc);
    list.push(Instr::Pack(Packing::Move(Sequence::from_slice(alloc, arrays)?, need)))?;
    list.push(Instr::Post { root: false })?;
    list.push(Instr::Take { root: false })?;
    list.push(Instr::Unpack(Unpacking::Moved(
        Sequence::from_slice(alloc, to)?,
        Sequence::from_slice(alloc, arrays)?,
        need,
    )))?;
    Ok(list)
}

/// One exchange, after which the array `to` stands for what `array` stood for and has the cuts of `leader`: each rank gets
/// the places that it has of `leader`, which has the same length. All else that a rank has stays. `NoMemory` for want of
/// memory alone.
#[tactic(auto, using(crate::proofs::RangeMoves::move_straight, crate::proofs::RangeMoves::move_work))]
pub fn align(alloc: Global, array: u32, leader: u32, to: u32) -> Result<Sequence<Instr>, NoMemory>
    ensures exact { IfOk result (λ list. list ≡ move_code (to ∷ []) (array ∷ []) (Like leader)) }
    ensures does { IfOk result (λ list. Copies (MayAlign array leader to) (to ∷ []) (array ∷ []) list) }
    ensures gets { IfOk result (λ list. Delivers (MayAlign array leader to) (to ∷ []) (array ∷ []) (Like leader) list) }
    ensures form { IfOk result IsStraight }
    ensures shares { IfOk result (λ list. (code : SpecCode) → AllByRecursion (LeavesShared code) list) }
    ensures work { IfOk result (IsWork 1) }
{
    let list = moves(alloc, &[array], &[to], Need::Like(leader))?;
    Ok(list)
}

/// One exchange, after which the array `to` stands for what `array` stood for, and lies in blocks: each rank gets its block.
/// All else that a rank has stays. `NoMemory` for want of memory alone.
#[tactic(auto, using(crate::proofs::RangeMoves::move_straight, crate::proofs::RangeMoves::move_work))]
pub fn rebalance(alloc: Global, array: u32, to: u32) -> Result<Sequence<Instr>, NoMemory>
    ensures exact { IfOk result (λ list. list ≡ move_code (to ∷ []) (array ∷ []) Blocks) }
    ensures does { IfOk result (λ list. Copies (MayBalance array to) (to ∷ []) (array ∷ []) list) }
    ensures gets { IfOk result (λ list. Delivers (MayBalance array to) (to ∷ []) (array ∷ []) Blocks list) }
    ensures form { IfOk result IsStraight }
    ensures shares { IfOk result (λ list. (code : SpecCode) → AllByRecursion (LeavesShared code) list) }
    ensures work { IfOk result (IsWork 1) }
{
    let list = moves(alloc, &[array], &[to], Need::Blocks)?;
    Ok(list)
}

/// One exchange, after which each of the arrays `to` stands for what that of `arrays` in its place stood for, and is whole on
/// each rank. All else that a rank has stays. `NoMemory` for want of memory alone.
#[tactic(auto, using(crate::proofs::RangeMoves::move_straight, crate::proofs::RangeMoves::move_work))]
pub fn whole(
    alloc: Global,
    arrays: &Sequence<u32>,
    to: &Sequence<u32>,
) -> Result<Sequence<Instr>, NoMemory>
    requires some { 1 ≤ length arrays.now }
    requires same { length to.now ≡ length arrays.now }
    ensures exact { IfOk result (λ list. list ≡ move_code to.now arrays.now Whole) }
    ensures does { IfOk result (λ list. Copies (MayGather arrays.now to.now) to.now arrays.now list) }
    ensures gets { IfOk result (λ list. Delivers (MayGather arrays.now to.now) to.now arrays.now Whole list) }
    ensures form { IfOk result IsStraight }
    ensures shares { IfOk result (λ list. (code : SpecCode) → AllByRecursion (LeavesShared code) list) }
    ensures work { IfOk result (IsWork 1) }
{
    let list = moves(alloc, arrays.as_slice(), to.as_slice(), Need::Whole)?;
    Ok(list)
}
