// The instructions that stand for an operation on whole arrays.

ghost use Rattle.std.specs.Prelude.{◌≡◌, if◌then◌else◌, [], ◌∷◌, ◌++◌, IfOk};
ghost use Rattle.std.specs.List.{list_all};
ghost use Rattle.hp_air.specs.Placed.{dist_at};
ghost use Rattle.hp_alone.specs.Joining.{join_code};
ghost use Rattle.hp_alone.specs.Summing.{sums_code};
ghost use Rattle.hp_coll.specs.Arriving.{arrive_code};
ghost use Rattle.hp_coll.specs.Scanning.{scan_code};
ghost use Rattle.hp_exchange.specs.Concats.{concat_code};
ghost use Rattle.hp_lowering.specs.PartCode.{copied_or_dealt, dealt_pair, part_code};
ghost use Rattle.hp_lowering.specs.Room.{part_word, room_of, start_word};
ghost use Rattle.hp_parfor.specs.LoopMeaning.{is_rep};
ghost use Rattle.hp_parfor.specs.Parts.{Does};
ghost use Rattle.hp_parfor.specs.Talk.{dealt};
ghost use Rattle.hp_spmd.specs.declared.instr.Instr.TheVariants as instr;
ghost use Rattle.hp_spmd.specs.declared.instr.Output.TheVariants as output;

use crate::plan::Plan;
use hp_air::what::{Op, What};
use hp_alone::copying::copy;
use hp_alone::dealing::{fill, range};
use hp_alone::joining::join;
use hp_alone::picking::pick;
use hp_alone::scalars::{calculation, constant, element, length};
use hp_alone::summing::running_sums;
use hp_coll::arrive::arrive;
use hp_coll::scan::scan;
use hp_exchange::concats::concat;
use hp_exchange::moves::rebalance;
use hp_spmd::instr::{Instr, Output};
use hp_word::place::{NoMemory, Place};
use hp_word::sequence::Sequence;
use std::alloc::Global;

/// The number of the loose column in which the left part of a concatenation waits.
const LOOSE: u32 = 0;

/// The two arrays, where the first is the only out, a balanced copy, and the other the only in and in uneven pieces.
fn dealt_out(plan: &Plan<'_>, outs: &[u32], ins: &[u32]) -> Option<(u32, u32)>
    ensures { result ≡ dealt_pair plan.now.slots.now (dist_at plan.now.dists.now) outs.now ins.now }
{
    match (outs, ins) {
        ([balanced], [array]) => {
            if plan.is_balanced(*balanced) && plan.is_uneven(*array) {
                Some((*balanced, *array))
            } else {
                None
            }
        }
        _ => None,
    }
}

/// A copy, or where it is to a balanced copy of an array in uneven pieces, the exchange that deals the array out.
fn copied_or_dealt(
    alloc: Global,
    plan: &Plan<'_>,
    outs: &Sequence<u32>,
    ins: &Sequence<u32>,
) -> Result<Sequence<Instr>, NoMemory>
    ensures { IfOk result (λ list. list ≡ copied_or_dealt (if list_all (λ k. is_rep (dist_at plan.now.dists.now k)) (outs.now ++ ins.now) then [] else dealt plan.now.slots.now (dist_at plan.now.dists.now) outs.now ins.now) outs.now ins.now) }
{
    match dealt_out(plan, outs.as_slice(), ins.as_slice()) {
        Some((balanced, array)) => rebalance(alloc, array, balanced),
        None => copy(alloc, outs, ins),
    }
}

/// Running sums.
fn sums(alloc: Global, plan: &Plan<'_>, out: u32, array: u32) -> Result<Sequence<Instr>, NoMemory>
    ensures { IfOk result (λ list. list ≡ (if list_all (λ k. is_rep (dist_at plan.now.dists.now k)) (out ∷ array ∷ []) then sums_code out array (part_word (room_of plan.now.slots.now plan.now.words)) (start_word (room_of plan.now.slots.now plan.now.words)) else scan_code out array (part_word (room_of plan.now.slots.now plan.now.words)) (start_word (room_of plan.now.slots.now plan.now.words)))) }
{
    if plan.are_whole(&[out, array]) {
        running_sums(alloc, out, array, plan.part_word(), plan.start_word()?)
    } else {
        scan(alloc, out, array, plan.part_word(), plan.start_word()?)
    }
}

/// One vector behind another.
fn joined(
    alloc: Global,
    plan: &Plan<'_>,
    out: u32,
    left: u32,
    right: u32,
    at: Place,
) -> Result<Sequence<Instr>, NoMemory>
    ensures { IfOk result (λ list. list ≡ (if list_all (λ k. is_rep (dist_at plan.now.dists.now k)) (out ∷ left ∷ right ∷ []) then join_code out left right at else concat_code left right 0 out at)) }
{
    if plan.are_whole(&[out, left, right]) {
        join(alloc, out, left, right, at)
    } else {
        concat(alloc, left, right, LOOSE, out, at)
    }
}

/// The output of a word.
fn printed_word(alloc: Global, word: u32, truth: bool) -> Result<Sequence<Instr>, NoMemory>
    ensures { IfOk result (λ list. list ≡ arrive_code (output.Word word truth)) }
{
    arrive(alloc, &Output::Word(word, truth))
}

/// The instructions of an operation; of one that is not built, none.
pub(crate) fn operation_code(
    alloc: Global,
    plan: &Plan<'_>,
    op: &Op,
) -> Result<Sequence<Instr>, NoMemory>
    ensures { IfOk result (λ list. list ≡ part_code (room_of plan.now.slots.now plan.now.words) plan.now.slots.now (dist_at plan.now.dists.now) (Does op.now)) }
{
    let at = op.at;
    match &op.what {
        What::Const { to, value } => constant(alloc, *to, *value),
        What::Calc {
            to,
            op,
            left,
            right,
        } => calculation(alloc, *to, *op, *left, *right, at),
        What::Length { to, array } => length(alloc, *to, *array),
        What::Fill { out, value, count } => fill(alloc, *out, *value, *count, at),
        What::Range { out, first, last } => range(alloc, *out, *first, *last, at),
        What::Copy { outs, ins } => copied_or_dealt(alloc, plan, outs, ins),
        What::Scan { out, array } => sums(alloc, plan, *out, *array),
        What::Concat { out, left, right } => joined(alloc, plan, *out, *left, *right, at),
        What::At { to, array, index } => element(alloc, *to, *array, *index, at),
        What::Pick { out, array, index } => pick(alloc, *out, *array, *index, at),
        What::PrintWord { word, truth } => printed_word(alloc, *word, *truth),
        What::PrintList { array, truth } => arrive(alloc, &Output::List(*array, *truth)),
        _ => Ok(Sequence::new(alloc)),
    }
}
