// One vector behind another.

ghost use Rattle.std.specs.Prelude.{◌≡◌, IfOk};
ghost use Rattle.std.specs.List.{AllByRecursion};
ghost use Rattle.hp_spmd.specs.declared.code.Code.{Code as SpecCode};
ghost use Rattle.hp_snippet.specs.Promises.{IsStraight, IsWork, LeavesShared};
ghost use Rattle.hp_exchange.specs.Concats.{Concatenates, DealsBoth, concat_code};

use hp_spmd::instr::{CheckRule, Instr, Need, Packing, Unpacking};
use hp_word::place::{NoMemory, Place};
use hp_word::sequence::Sequence;
use std::alloc::Global;

/// The look at the lengths and both exchanges.
fn instructions(
    alloc: Global,
    left: u32,
    right: u32,
    part: u32,
    to: u32,
    at: Place,
) -> Result<Sequence<Instr>, NoMemory>
    ensures { IfOk result (λ list. list ≡ concat_code left right part to at) }
{
    let mut list = Sequence::new(alloc);
    list.push(Instr::Check {
        arrays: Sequence::from_slice(alloc, &[left, right])?,
        rule: CheckRule::Fits,
        at,
    })?;
    let first = Sequence::from_slice(alloc, &[left])?;
    list.push(Instr::Pack(Packing::Move(first, Need::First(right))))?;
    list.push(Instr::Post { root: false })?;
    list.push(Instr::Take { root: false })?;
    list.push(Instr::Unpack(Unpacking::Into(part)))?;
    let second = Sequence::from_slice(alloc, &[right])?;
    list.push(Instr::Pack(Packing::Move(second, Need::Second(left))))?;
    list.push(Instr::Post { root: false })?;
    list.push(Instr::Take { root: false })?;
    list.push(Instr::Unpack(Unpacking::Glued(to, part, left, right)))?;
    Ok(list)
}

/// Two exchanges, after which the array `to` stands for the vector `left` with the vector `right` behind it, in blocks;
/// `TooLong` at `at` where they have more than 1,048,576 elements together, on all ranks and before the first exchange. The
/// loose column `part` has then what the rank's block has of `left`. All else that a rank has stays. `NoMemory` for want of
/// memory alone.
#[tactic(auto, using(crate::proofs::Concatenating::concat_straight, crate::proofs::Concatenating::concat_work))]
pub fn concat(
    alloc: Global,
    left: u32,
    right: u32,
    part: u32,
    to: u32,
    at: Place,
) -> Result<Sequence<Instr>, NoMemory>
    ensures exact { IfOk result (λ list. list ≡ concat_code left right part to at) }
    ensures does { IfOk result (λ list. Concatenates left right part to at list) }
    ensures gets { IfOk result (λ list. DealsBoth left right part to at list) }
    ensures form { IfOk result IsStraight }
    ensures shares { IfOk result (λ list. (code : SpecCode) → AllByRecursion (LeavesShared code) list) }
    ensures work { IfOk result (IsWork 2) }
{
    let list = instructions(alloc, left, right, part, to, at)?;
    Ok(list)
}
