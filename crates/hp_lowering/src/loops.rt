// The instructions that stand for a loop.

ghost use Rattle.std.specs.Prelude.{◌≡◌, ◌&&◌, if◌then◌else◌, [], ◌∷◌, ◌++◌, map, IfOk, OnOk};
ghost use Rattle.std.specs.List.{list_all, list_any};
ghost use Rattle.hp_air.specs.Placed.{dist_at};
ghost use Rattle.hp_lowering.specs.PartCode.{checks, folds_over, halo_moves, halos_at, input_moves, inputs_at, loop_code, loop_instr, part_code, whole_halos};
ghost use Rattle.hp_exchange.specs.Ranges.{move_code};
ghost use Rattle.hp_lowering.specs.Room.{room_of, spare};
ghost use Rattle.hp_spmd.specs.declared.instr.Need.TheVariants.{Like};
ghost use Rattle.hp_parfor.specs.LoopMeaning.{is_moved, is_rep, is_replicated, needs_some};
ghost use Rattle.hp_parfor.specs.Parts.{Loops, loop_reads, loop_writes, part_arrays};
ghost use Rattle.hp_spmd.specs.declared.instr.Instr.TheVariants as instr;
ghost use Rattle.hp_spmd.specs.declared.instr.CheckRule.TheVariants as rule;

use crate::plan::{Plan, sum_of};
use crate::steps::append;
use hp_alone::looking::check;
use hp_coll::reduce::reduce;
use hp_exchange::halos::halo;
use hp_exchange::moves::align;
use hp_parfor::copied::{copied_elem, copied_slots};
use hp_parfor::parfor::{Folding, Halo, Parfor};
use hp_spmd::instr::{CheckRule, HaloFrom, Instr, Loop, Out};
use hp_word::elem::Elem;
use hp_word::fold::FoldKind;
use hp_word::place::NoMemory;
use hp_word::sequence::Sequence;
use std::alloc::Global;

/// Whether a fold of no values has none.
fn needs_some(kind: FoldKind) -> bool
    ensures { result ≡ needs_some kind }
{
    matches!(kind, FoldKind::Min | FoldKind::Max)
}

/// Whether a fold of a loop wants a place.
fn wants_place(folds: &[Folding]) -> bool
    ensures { result ≡ list_any (λ f. needs_some f.kind) folds.now }
{
    folds.iter().any(|fold| needs_some(fold.kind))
}

/// Adds the look at whether there is a place, where a fold needs one.
fn add_look(alloc: Global, list: &mut Sequence<Instr>, p: &Parfor) -> Result<(), NoMemory>
    ensures { OnOk result (list.new ≡ list.old ++ (if list_any (λ f. needs_some f.kind) p.now.folds then instr.Check (p.now.leader ∷ []) rule.Some p.now.at ∷ [] else [])) }
{
    if wants_place(p.folds.as_slice()) {
        list.push(Instr::Check {
            arrays: Sequence::from_slice(alloc, &[p.leader])?,
            rule: CheckRule::Some,
            at: p.at,
        })?;
    }
    Ok(())
}

/// The leader and the inputs.
fn read_places(alloc: Global, p: &Parfor) -> Result<Sequence<u32>, NoMemory>
    ensures { IfOk result (λ list. list ≡ p.now.leader ∷ p.now.inputs) }
{
    let mut list = Sequence::from_slice(alloc, &[p.leader])?;
    for input in p.inputs.as_slice() {
        list.push(*input)?;
    }
    Ok(list)
}

/// The looks at the lengths of the leader and the inputs, and at whether there is a place where a fold needs one.
fn checks(alloc: Global, p: &Parfor) -> Result<Sequence<Instr>, NoMemory>
    ensures { IfOk result (λ list. list ≡ checks p.now) }
{
    let arrays = read_places(alloc, p)?;
    let mut list = Sequence::new(alloc);
    list.push(Instr::Check {
        arrays,
        rule: CheckRule::Equal,
        at: p.at,
    })?;
    add_look(alloc, &mut list, p)?;
    Ok(list)
}

/// Copies of lets.
fn copied_lets(alloc: Global, lets: &[Elem]) -> Result<Sequence<Elem>, NoMemory>
    ensures { IfOk result (λ copy. copy ≡ lets.now) }
{
    let mut copy = Sequence::new(alloc);
    for elem in lets {
        copy.push(copied_elem(alloc, elem)?)?;
    }
    Ok(copy)
}

/// The loop over these inputs and halos.
fn loop_instr(
    alloc: Global,
    inputs: Sequence<u32>,
    halos: Sequence<HaloFrom>,
    p: &Parfor,
) -> Result<Instr, NoMemory>
    ensures { IfOk result (λ made. made ≡ loop_instr inputs halos p.now) }
{
    Ok(Instr::Loop(Loop {
        leader: p.leader,
        inputs,
        halos,
        lets: copied_lets(alloc, p.lets.as_slice())?,
        outs: Sequence::from_slice(alloc, p.outs.as_slice())?,
        folds: Sequence::from_slice(alloc, p.folds.as_slice())?,
    }))
}

/// The halos of arrays that are whole on each rank.
fn whole_halos(alloc: Global, halos: &[Halo]) -> Result<Sequence<HaloFrom>, NoMemory>
    ensures { IfOk result (λ made. made ≡ whole_halos halos.now) }
{
    let mut made = Sequence::new(alloc);
    for halo in halos {
        made.push(HaloFrom::Whole(halo.array))?;
    }
    Ok(made)
}

/// Where the input of a loop with this number stands: one that lies in other pieces than the leader in its spare array.
fn stands_at(plan: &Plan<'_>, leader: u32, number: u32, input: u32) -> Result<u32, NoMemory>
    ensures { IfOk result (λ array. array ≡ (if is_moved (dist_at plan.now.dists.now) leader input then spare (room_of plan.now.slots.now plan.now.words) number else input)) }
{
    if plan.is_moved(leader, input) {
        plan.spare(number)
    } else {
        Ok(input)
    }
}

/// Where the inputs stand.
fn inputs_at(
    alloc: Global,
    plan: &Plan<'_>,
    leader: u32,
    inputs: &[u32],
) -> Result<Sequence<u32>, NoMemory>
    ensures { IfOk result (λ made. made ≡ inputs_at (room_of plan.now.slots.now plan.now.words) (dist_at plan.now.dists.now) leader 0 inputs.now) }
{
    let mut made = Sequence::new(alloc);
    let mut number = 0;
    for input in inputs {
        let stands = stands_at(plan, leader, number, *input)?;
        made.push(stands)?;
        number = sum_of(number, 1)?;
    }
    Ok(made)
}

/// Adds the move of the input with this number, if it is moved.
fn add_move(
    alloc: Global,
    plan: &Plan<'_>,
    list: &mut Sequence<Instr>,
    leader: u32,
    number: u32,
    input: u32,
) -> Result<(), NoMemory>
    ensures { OnOk result (list.new ≡ list.old ++ (if is_moved (dist_at plan.now.dists.now) leader input then move_code (spare (room_of plan.now.slots.now plan.now.words) number ∷ []) (input ∷ []) (Like leader) else [])) }
{
    if plan.is_moved(leader, input) {
        append(list, align(alloc, input, leader, plan.spare(number)?)?)?;
    }
    Ok(())
}

/// Adds the moves of the inputs.
fn add_moves(
    alloc: Global,
    plan: &Plan<'_>,
    list: &mut Sequence<Instr>,
    leader: u32,
    inputs: &[u32],
) -> Result<(), NoMemory>
    ensures { OnOk result (list.new ≡ list.old ++ input_moves (room_of plan.now.slots.now plan.now.words) (dist_at plan.now.dists.now) leader 0 inputs.now) }
{
    let mut number = 0;
    for input in inputs {
        add_move(alloc, plan, list, leader, number, *input)?;
        number = sum_of(number, 1)?;
    }
    Ok(())
}

/// The halos in the loose columns of their numbers.
fn halos_at(alloc: Global, halos: &[Halo]) -> Result<Sequence<HaloFrom>, NoMemory>
    ensures { IfOk result (λ made. made ≡ halos_at 0 halos.now) }
{
    let mut made = Sequence::new(alloc);
    let mut number = 0;
    for halo in halos {
        made.push(HaloFrom::Loose(number, halo.reach))?;
        number = sum_of(number, 1)?;
    }
    Ok(made)
}

/// Adds the exchanges of the halos.
fn add_halos(alloc: Global, list: &mut Sequence<Instr>, halos: &[Halo]) -> Result<(), NoMemory>
    ensures { OnOk result (list.new ≡ list.old ++ halo_moves 0 halos.now) }
{
    let mut number = 0;
    for near in halos {
        let code = halo(alloc, near.array, near.reach, number)?;
        append(list, code)?;
        number = sum_of(number, 1)?;
    }
    Ok(())
}

/// Adds the exchange of the folds' words, where there are any.
fn add_folds(
    alloc: Global,
    list: &mut Sequence<Instr>,
    folds: &Sequence<Folding>,
) -> Result<(), NoMemory>
    ensures { OnOk result (list.new ≡ list.old ++ folds_over folds.now) }
{
    if !folds.is_empty() {
        append(list, reduce(alloc, folds)?)?;
    }
    Ok(())
}

/// Whether all arrays that a loop makes are whole on each rank.
fn makes_whole(plan: &Plan<'_>, outs: &[Out]) -> bool
    ensures { result ≡ list_all (λ o. is_rep (dist_at plan.now.dists.now o.array)) outs.now }
{
    outs.iter().all(|out| plan.is_whole(out.array))
}

/// Whether all arrays that a loop reads round its places are whole on each rank.
fn looks_at_whole(plan: &Plan<'_>, halos: &[Halo]) -> bool
    ensures { result ≡ list_all (λ h. is_rep (dist_at plan.now.dists.now h.array)) halos.now }
{
    halos.iter().all(|halo| plan.is_whole(halo.array))
}

/// Whether both hold.
fn both(first: bool, second: bool) -> bool
    ensures { result ≡ (first && second) }
{
    first && second
}

/// Whether all arrays of a loop are whole on each rank.
#[tactic(auto, using(crate::proofs::LoopCodes::whole_arrays))]
fn is_whole(plan: &Plan<'_>, p: &Parfor) -> bool
    ensures { result ≡ is_replicated (dist_at plan.now.dists.now) (Loops p.now) }
{
    let outs = makes_whole(plan, p.outs.as_slice());
    let leader = plan.is_whole(p.leader);
    let inputs = plan.are_whole(p.inputs.as_slice());
    let halos = looks_at_whole(plan, p.halos.as_slice());
    let near = both(inputs, halos);
    let reads = both(leader, near);
    both(outs, reads)
}

/// Adds a loop over pieces: its moves, its halos, the loop itself and its folds.
fn add_pieces(
    alloc: Global,
    plan: &Plan<'_>,
    list: &mut Sequence<Instr>,
    p: &Parfor,
) -> Result<(), NoMemory>
    ensures { OnOk result (list.new ≡ list.old ++ (input_moves (room_of plan.now.slots.now plan.now.words) (dist_at plan.now.dists.now) p.now.leader 0 p.now.inputs ++ (halo_moves 0 p.now.halos ++ (loop_instr (inputs_at (room_of plan.now.slots.now plan.now.words) (dist_at plan.now.dists.now) p.now.leader 0 p.now.inputs) (halos_at 0 p.now.halos) p.now ∷ folds_over p.now.folds)))) }
{
    add_moves(alloc, plan, list, p.leader, p.inputs.as_slice())?;
    add_halos(alloc, list, p.halos.as_slice())?;
    let inputs = inputs_at(alloc, plan, p.leader, p.inputs.as_slice())?;
    let halos = halos_at(alloc, p.halos.as_slice())?;
    list.push(loop_instr(alloc, inputs, halos, p)?)?;
    add_folds(alloc, list, &p.folds)
}

/// Adds a loop over arrays that are whole on each rank.
fn add_whole(alloc: Global, list: &mut Sequence<Instr>, p: &Parfor) -> Result<(), NoMemory>
    ensures { OnOk result (list.new ≡ list.old ++ loop_instr p.now.inputs (whole_halos p.now.halos) p.now ∷ []) }
{
    let inputs = copied_slots(alloc, &p.inputs)?;
    let halos = whole_halos(alloc, p.halos.as_slice())?;
    list.push(loop_instr(alloc, inputs, halos, p)?)?;
    Ok(())
}

/// Adds a loop, over whole arrays or over pieces.
fn add_loop(
    alloc: Global,
    plan: &Plan<'_>,
    list: &mut Sequence<Instr>,
    p: &Parfor,
) -> Result<(), NoMemory>
    ensures { OnOk result (list.new ≡ list.old ++ (if is_replicated (dist_at plan.now.dists.now) (Loops p.now) then loop_instr p.now.inputs (whole_halos p.now.halos) p.now ∷ [] else (input_moves (room_of plan.now.slots.now plan.now.words) (dist_at plan.now.dists.now) p.now.leader 0 p.now.inputs ++ (halo_moves 0 p.now.halos ++ (loop_instr (inputs_at (room_of plan.now.slots.now plan.now.words) (dist_at plan.now.dists.now) p.now.leader 0 p.now.inputs) (halos_at 0 p.now.halos) p.now ∷ folds_over p.now.folds))))) }
{
    if is_whole(plan, p) {
        add_whole(alloc, list, p)
    } else {
        add_pieces(alloc, plan, list, p)
    }
}

/// The instructions of a loop.
#[tactic(auto, using(crate::proofs::LoopCodes::loop_is))]
pub(crate) fn loop_code(
    alloc: Global,
    plan: &Plan<'_>,
    p: &Parfor,
) -> Result<Sequence<Instr>, NoMemory>
    ensures { IfOk result (λ list. list ≡ part_code (room_of plan.now.slots.now plan.now.words) plan.now.slots.now (dist_at plan.now.dists.now) (Loops p.now)) }
{
    let mut list = checks(alloc, p)?;
    add_loop(alloc, plan, &mut list, p)?;
    Ok(list)
}
