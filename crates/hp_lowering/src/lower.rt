// From a program with loops to the program of all ranks.

ghost use Rattle.std.specs.Prelude.{◌≡◌, ◌≤◌, ◌++◌, length, take, replicate, map, IfOk, OnOk};
ghost use Rattle.hp_lattice.specs.declared.dist.Dist.TheVariants.{Var};
ghost use Rattle.hp_lowering.specs.CodeOf.{code_list};
ghost use Rattle.hp_lowering.specs.Follows.{Follows};
ghost use Rattle.hp_lowering.specs.PartCode.{is_part_built};
ghost use Rattle.hp_lowering.specs.RunLaws.{DoesParts};
ghost use Rattle.hp_lowering.specs.Room.{code_arrays, code_loose, code_words, greatest, loose_of, spares_of};
ghost use Rattle.hp_parfor.specs.Parts.{program_of};
ghost use Rattle.hp_parfor.specs.PlacedParts.{PlacedParts};
ghost use Rattle.hp_program.specs.Programs.{operations};
ghost use Rattle.hp_spmd.specs.Exchanges.{HasForm};
ghost use Rattle.std.specs.Bool.{IsTrue};
ghost use Rattle.std.specs.List.{AllByRecursion};

use crate::counts::counts_of;
use crate::plan::{Plan, sum_of};
use crate::steps::steps_code;
use hp_lattice::dist::{Dist, Dists};
use hp_parfor::parfor::Step;
use hp_parfor::parfors::Parfors;
use hp_spmd::code::Code;
use hp_spmd::instr::Instr;
use hp_word::place::NoMemory;
use hp_word::sequence::Sequence;
use std::alloc::Global;

/// How many words the code of a step can have of its own.
const OWN_WORDS: usize = 2;

/// Adds the distributions of so many spare arrays.
fn add_spares(list: &mut Sequence<Dist>, spares: usize) -> Result<(), NoMemory>
    ensures { OnOk result (list.new ≡ list.old ++ replicate spares Var) }
{
    for _ in 0..spares {
        list.push(Dist::Var)?;
    }
    Ok(())
}

/// The distributions of the slots, and of so many spare arrays.
fn arrays(
    alloc: Global,
    slots: usize,
    dists: &[Dist],
    spares: usize,
) -> Result<Sequence<Dist>, NoMemory>
    requires { slots ≤ length dists.now }
    ensures { IfOk result (λ list. list ≡ take slots dists.now ++ replicate spares Var) }
{
    let mut list = Sequence::from_slice(alloc, &dists[..slots])?;
    add_spares(&mut list, spares)?;
    Ok(list)
}

/// The instructions of a whole program.
#[tactic(auto, unfolding(crate::specs::CodeOf::code_list))]
fn whole_code(alloc: Global, plan: &Plan<'_>, body: &[Step]) -> Result<Sequence<Instr>, NoMemory>
    ensures { IfOk result (λ list. list ≡ code_list plan.now.slots.now plan.now.words (program_of body.now) plan.now.dists.now) }
{
    let mut list = steps_code(alloc, plan, 0, body)?;
    list.push(Instr::Halt)?;
    Ok(list)
}

/// The program of all ranks for a program with loops whose slots have these distributions: the code of each step in the order
/// of the text, branches and loops of steps as jumps, and a halt. It has the form of exchanges, and where all steps are built it
/// follows the program, and what all ranks do is what the program does. `NoMemory` for want of memory alone.
pub fn lower(alloc: Global, parfors: &Parfors, dists: &Dists) -> Result<Code, NoMemory>
    requires placed { PlacedParts parfors.now.slots (program_of parfors.now.body) dists.now.list }
    ensures list { IfOk result (λ code. code.list ≡ code_list parfors.now.slots parfors.now.words (program_of parfors.now.body) dists.now.list) }
    ensures words { IfOk result (λ code. code.words ≡ code_words parfors.now.words) }
    ensures arrays { IfOk result (λ code. code.arrays ≡ code_arrays parfors.now.slots (program_of parfors.now.body) dists.now.list) }
    ensures loose { IfOk result (λ code. code.loose ≡ code_loose (program_of parfors.now.body)) }
    ensures form { IfOk result (λ code. HasForm code.list) }
    ensures follows { AllByRecursion (λ part. IsTrue (is_part_built part)) (operations (program_of parfors.now.body)) → IfOk result (λ code. Follows code parfors.now.slots parfors.now.words (program_of parfors.now.body) dists.now.list) }
    ensures does { AllByRecursion (λ part. IsTrue (is_part_built part)) (operations (program_of parfors.now.body)) → IfOk result (λ code. DoesParts code parfors.now.slots parfors.now.words (program_of parfors.now.body) dists.now.list) }
{
    let plan = Plan {
        slots: parfors.slots.as_slice(),
        words: parfors.words,
        dists: dists.list.as_slice(),
    };
    let body = parfors.body.as_slice();
    let list = whole_code(alloc, &plan, body)?;
    let counts = counts_of(body);
    let words = sum_of(parfors.words, OWN_WORDS)?;
    let arrays = arrays(alloc, plan.slots.len(), plan.dists, counts.spares)?;
    let loose = sum_of(0, counts.loose)?;
    Ok(Code {
        list,
        words,
        arrays,
        loose,
    })
}
