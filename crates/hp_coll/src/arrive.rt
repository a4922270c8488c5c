// What rank 0 writes of what the ranks stand for.

ghost use Rattle.std.specs.Prelude.{◌≡◌, IfOk};
ghost use Rattle.std.specs.List.{AllByRecursion};
ghost use Rattle.hp_spmd.specs.declared.code.Code.{Code};
ghost use Rattle.hp_spmd.specs.declared.instr.Output.TheVariants as output;
ghost use Rattle.hp_snippet.specs.Promises.{IsStraight, IsWork, LeavesShared, Performs};
ghost use Rattle.hp_coll.specs.Arriving.{MayArrive, arrive_code, arrive_writes, arrived};

use hp_spmd::instr::{Instr, Output, Packing};
use hp_word::name::{Name, copied_name};
use hp_word::place::NoMemory;
use hp_word::sequence::Sequence;
use std::alloc::Global;

/// A copy of names.
fn copied_names(alloc: Global, names: &[Name]) -> Result<Sequence<Name>, NoMemory>
    ensures { IfOk result (λ copy. copy ≡ names.now) }
{
    let mut copy = Sequence::new(alloc);
    for name in names {
        copy.push(copied_name(alloc, name)?)?;
    }
    Ok(copy)
}

/// A copy of a table's columns and names.
pub fn copied_table(
    alloc: Global,
    arrays: &Sequence<u32>,
    names: &Sequence<Name>,
) -> Result<Output, NoMemory>
    ensures { IfOk result (λ copy. copy ≡ output.Table arrays.now names.now) }
{
    let arrays = Sequence::from_slice(alloc, arrays.as_slice())?;
    Ok(Output::Table(arrays, copied_names(alloc, names.as_slice())?))
}

/// A copy of an output.
fn copied(alloc: Global, what: &Output) -> Result<Output, NoMemory>
    ensures { IfOk result (λ copy. copy ≡ what.now) }
{
    match what {
        Output::Word(word, truth) => Ok(Output::Word(*word, *truth)),
        Output::List(array, truth) => Ok(Output::List(*array, *truth)),
        Output::Table(arrays, names) => copied_table(alloc, arrays, names),
    }
}

/// The instructions of an output.
fn instructions(alloc: Global, what: &Output) -> Result<Sequence<Instr>, NoMemory>
    ensures { IfOk result (λ list. list ≡ arrive_code what.now) }
{
    let mut list = Sequence::new(alloc);
    list.push(Instr::Pack(Packing::Gather(copied(alloc, what)?)))?;
    list.push(Instr::Post { root: true })?;
    list.push(Instr::Take { root: true })?;
    list.push(Instr::Write(copied(alloc, what)?))?;
    Ok(list)
}

/// One exchange, in which rank 0 writes the line of a word that all ranks have, that of an array however it lies, or a table of
/// arrays that lie alike. What the ranks have stays. `NoMemory` for want of memory alone.
#[tactic(auto, using(crate::proofs::Lines::list_arrives, crate::proofs::Lines::arrive_straight, crate::proofs::Lines::arrive_work))]
pub fn arrive(alloc: Global, what: &Output) -> Result<Sequence<Instr>, NoMemory>
    ensures exact { IfOk result (λ list. list ≡ arrive_code what.now) }
    ensures does { IfOk result (λ list. Performs (MayArrive what.now) (arrived what.now) arrive_writes list) }
    ensures form { IfOk result IsStraight }
    ensures shares { IfOk result (λ list. (code : Code) → AllByRecursion (LeavesShared code) list) }
    ensures work { IfOk result (IsWork 1) }
{
    let list = instructions(alloc, what)?;
    Ok(list)
}
