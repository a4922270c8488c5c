// The instructions of steps at all depths: branches and loops of steps are jumps.

ghost use Rattle.std.specs.Prelude.{◌≡◌, ◌+◌, Some, None, [], ◌∷◌, ◌++◌, length, IfOk, OnOk};
ghost use Rattle.hp_air.specs.Placed.{dist_at};
ghost use Rattle.hp_lowering.specs.CodeOf.{code_from};
ghost use Rattle.hp_lowering.specs.PartCode.{part_code};
ghost use Rattle.hp_lowering.specs.Room.{room_of};
ghost use Rattle.hp_parfor.specs.Parts.{program_of};
ghost use Rattle.hp_spmd.specs.declared.instr.Instr.TheVariants as instr;

use crate::loops::loop_code;
use crate::operations::operation_code;
use crate::plan::{Plan, sum_of};
use hp_parfor::parfor::Step;
use hp_spmd::instr::Instr;
use hp_word::place::NoMemory;
use hp_word::sequence::Sequence;
use std::alloc::Global;

/// Adds instructions behind others.
pub(crate) fn append(list: &mut Sequence<Instr>, more: Sequence<Instr>) -> Result<(), NoMemory>
    ensures { OnOk result (list.new ≡ list.old ++ more) }
{
    for instr in more.into_vec() {
        list.push(instr)?;
    }
    Ok(())
}

/// The jump to a place, where a word is 0 or always.
fn push_jump(list: &mut Sequence<Instr>, target: u32, unless: Option<u32>) -> Result<(), NoMemory>
    ensures { OnOk result (list.new ≡ list.old ++ instr.Jump target unless ∷ []) }
{
    list.push(Instr::Jump { target, unless })?;
    Ok(())
}

/// A branch by a word: its first steps, and at the place `other` its second ones, which begin where the word is 0.
fn branch(
    alloc: Global,
    word: u32,
    first: Sequence<Instr>,
    other: u32,
    second: Sequence<Instr>,
) -> Result<Sequence<Instr>, NoMemory>
    ensures { IfOk result (λ list. list ≡ instr.Jump other (Some word) ∷ (first ++ (instr.Jump (other + length second) None ∷ second))) }
{
    let behind = sum_of(other, second.len())?;
    let mut list = Sequence::new(alloc);
    push_jump(&mut list, other, Some(word))?;
    append(&mut list, first)?;
    push_jump(&mut list, behind, None)?;
    append(&mut list, second)?;
    Ok(list)
}

/// A loop by a word: the steps of its test at a place, and at the place `inside` those of a turn, behind which it goes back.
fn turns(
    place: u32,
    word: u32,
    test: Sequence<Instr>,
    inside: u32,
    body: Sequence<Instr>,
) -> Result<Sequence<Instr>, NoMemory>
    ensures { IfOk result (λ list. list ≡ test ++ (instr.Jump (inside + length body + 1) (Some word) ∷ (body ++ (instr.Jump place None ∷ [])))) }
{
    let behind = sum_of(sum_of(inside, body.len())?, 1)?;
    let mut list = test;
    push_jump(&mut list, behind, Some(word))?;
    append(&mut list, body)?;
    push_jump(&mut list, place, None)?;
    Ok(list)
}

/// The instructions of steps from a place on.
#[cycle(steps)]
pub(crate) fn steps_code(
    alloc: Global,
    plan: &Plan<'_>,
    place: u32,
    steps: &[Step],
) -> Result<Sequence<Instr>, NoMemory>
    ensures { IfOk result (λ list. list ≡ code_from (part_code (room_of plan.now.slots.now plan.now.words) plan.now.slots.now (dist_at plan.now.dists.now)) place (program_of steps.now)) }
{
    let mut list = Sequence::new(alloc);
    for step in steps {
        let here = sum_of(place, list.len())?;
        let code = step_code(alloc, plan, here, step)?;
        append(&mut list, code)?;
    }
    Ok(list)
}

/// The instructions of a step at a place.
#[cycle(steps)]
fn step_code(
    alloc: Global,
    plan: &Plan<'_>,
    place: u32,
    step: &Step,
) -> Result<Sequence<Instr>, NoMemory>
    ensures { IfOk result (λ list. list ≡ code_from (part_code (room_of plan.now.slots.now plan.now.words) plan.now.slots.now (dist_at plan.now.dists.now)) place (program_of (step.now ∷ []))) }
{
    match step {
        Step::Plain(op) => operation_code(alloc, plan, op),
        Step::Loop(p) => loop_code(alloc, plan, p),
        Step::If(word, first, second) => {
            let within = sum_of(place, 1)?;
            let first = steps_code(alloc, plan, within, first.as_slice())?;
            let last = sum_of(place, first.len())?;
            let other = sum_of(last, 2)?;
            let second = steps_code(alloc, plan, other, second.as_slice())?;
            branch(alloc, *word, first, other, second)
        }
        Step::While(test, word, body) => {
            let test = steps_code(alloc, plan, place, test.as_slice())?;
            let look = sum_of(place, test.len())?;
            let inside = sum_of(look, 1)?;
            let body = steps_code(alloc, plan, inside, body.as_slice())?;
            turns(place, *word, test, inside, body)
        }
    }
}
