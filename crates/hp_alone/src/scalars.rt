// Words that all ranks make alike, each by itself.

ghost use Rattle.std.specs.Prelude.{◌≡◌, IfOk};
ghost use Rattle.std.specs.List.{AllByRecursion};
ghost use Rattle.hp_spmd.specs.declared.code.Code.{Code};
ghost use Rattle.hp_snippet.specs.Promises.{IsStraight, IsWork, LeavesShared, Performs};
ghost use Rattle.hp_alone.specs.Scalars.{HaveValues, MayCount, MayTake, NeedsNothing, at_code, calc_code, calculated_word, const_code, constant as spec_constant, counted, element_taken, length_code, word_alone};

use crate::single::single;
use hp_spmd::instr::Instr;
use hp_word::place::{NoMemory, Place};
use hp_word::sequence::Sequence;
use hp_word::word::CalcOp;
use std::alloc::Global;

/// The word `to` becomes a number. All else that a rank has stays. `NoMemory` for want of memory alone.
#[tactic(auto, using(crate::proofs::WordsMade::const_straight, crate::proofs::WordsMade::const_work))]
pub fn constant(alloc: Global, to: u32, value: i64) -> Result<Sequence<Instr>, NoMemory>
    ensures exact { IfOk result (λ list. list ≡ const_code to value) }
    ensures does { IfOk result (λ list. Performs NeedsNothing (spec_constant to value) (word_alone to) list) }
    ensures form { IfOk result IsStraight }
    ensures shares { IfOk result (λ list. (code : Code) → AllByRecursion (LeavesShared code) list) }
    ensures work { IfOk result (IsWork 1) }
{
    let list = single(alloc, Instr::Const { to, value })?;
    Ok(list)
}

/// The word `to` becomes what an operation gives of two words, or the operation traps at `at` on every rank. All else that a
/// rank has stays. `NoMemory` for want of memory alone.
#[tactic(auto, using(crate::proofs::WordsMade::calc_straight, crate::proofs::WordsMade::calc_work))]
pub fn calculation(
    alloc: Global,
    to: u32,
    op: CalcOp,
    left: u32,
    right: u32,
    at: Place,
) -> Result<Sequence<Instr>, NoMemory>
    ensures exact { IfOk result (λ list. list ≡ calc_code to op left right at) }
    ensures does { IfOk result (λ list. Performs (HaveValues left right) (calculated_word to op left right at) (word_alone to) list) }
    ensures form { IfOk result IsStraight }
    ensures shares { IfOk result (λ list. (code : Code) → AllByRecursion (LeavesShared code) list) }
    ensures work { IfOk result (IsWork 1) }
{
    let list = single(
        alloc,
        Instr::Calc {
            to,
            op,
            left,
            right,
            at,
        },
    )?;
    Ok(list)
}

/// The word `to` becomes the length of a vector. All else that a rank has stays. `NoMemory` for want of memory alone.
#[tactic(auto, using(crate::proofs::WordsMade::length_straight, crate::proofs::WordsMade::length_work))]
pub fn length(alloc: Global, to: u32, array: u32) -> Result<Sequence<Instr>, NoMemory>
    ensures exact { IfOk result (λ list. list ≡ length_code to array) }
    ensures does { IfOk result (λ list. Performs (MayCount array) (counted to array) (word_alone to) list) }
    ensures form { IfOk result IsStraight }
    ensures shares { IfOk result (λ list. (code : Code) → AllByRecursion (LeavesShared code) list) }
    ensures work { IfOk result (IsWork 1) }
{
    let list = single(alloc, Instr::Length { to, array })?;
    Ok(list)
}

/// The word `to` becomes the element of an array, which is whole on each rank, at the position that the word `index` says;
/// `Index` at `at` on every rank where there is none. All else that a rank has stays. `NoMemory` for want of memory alone.
#[tactic(auto, using(crate::proofs::WordsMade::at_straight, crate::proofs::WordsMade::at_work))]
pub fn element(
    alloc: Global,
    to: u32,
    array: u32,
    index: u32,
    at: Place,
) -> Result<Sequence<Instr>, NoMemory>
    ensures exact { IfOk result (λ list. list ≡ at_code to array index at) }
    ensures does { IfOk result (λ list. Performs (MayTake array index) (element_taken to array index at) (word_alone to) list) }
    ensures form { IfOk result IsStraight }
    ensures shares { IfOk result (λ list. (code : Code) → AllByRecursion (LeavesShared code) list) }
    ensures work { IfOk result (IsWork 1) }
{
    let list = single(
        alloc,
        Instr::At {
            to,
            array,
            index,
            at,
        },
    )?;
    Ok(list)
}
