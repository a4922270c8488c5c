// Two small codes, run.

ghost use Rattle.std.specs.Prelude.{◌≡◌, ◌≤◌, [], ◌∷◌, IsTrue, IfOk};
ghost use Rattle.hp_spmd.specs.Names.{loop_within};

use hp_lattice::dist::Dist;
use hp_spmd::code::Code;
use hp_spmd::instr::{Folding, Instr, Loop, Output, Packing, Unpacking};
use hp_spmd::lockstep::{LockEnd, LockStatus, lockstep};
use hp_word::elem::Elem;
use hp_word::fold::FoldKind;
use hp_word::place::{NoMemory, Place};
use hp_word::sequence::Sequence;
use hp_word::table::Tables;
use std::alloc::Global;
use std::test::Fail;

/// Only a Halt.
fn halt(alloc: Global) -> Result<Code, NoMemory> {
    Ok(Code {
        list: Sequence::from_vec(vec![in alloc; Instr::Halt]?),
        words: 0,
        arrays: Sequence::new(alloc),
        loose: 0,
    })
}

/// A list of one item.
fn only<T: Drop>(alloc: Global, item: T) -> Result<Sequence<T>, NoMemory>
    ensures { IfOk result (λ it. it ≡ item ∷ []) }
{
    let mut list = Sequence::new(alloc);
    list.push(item)?;
    Ok(list)
}

/// Sums the array 0 into the word 2.
fn total(alloc: Global) -> Result<Loop, NoMemory>
    ensures { IfOk result (λ it. IsTrue (loop_within 3 1 0 it)) }
{
    let inputs = only(alloc, 0)?;
    let lets = only(alloc, Elem::Input(0))?;
    let folds = only(
        alloc,
        Folding {
            word: 2,
            kind: FoldKind::Sum,
            value: 0,
        },
    )?;
    Ok(Loop {
        leader: 0,
        inputs,
        halos: Sequence::new(alloc),
        lets,
        outs: Sequence::new(alloc),
        folds,
    })
}

/// The sum of ten threes, printed.
fn sum(alloc: Global) -> Result<Code, NoMemory> {
    let at = Place { line: 1, col: 1 };
    let words = only(alloc, 2)?;
    let folds = only(alloc, (2, FoldKind::Sum))?;
    let arrays = only(alloc, Dist::Block)?;
    let total = total(alloc)?;
    let list = vec![in alloc;
        Instr::Const { to: 0, value: 3 },
        Instr::Const { to: 1, value: 10 },
        Instr::Fill {
            to: 0,
            value: 0,
            count: 1,
            at
        },
        Instr::Loop(total),
        Instr::Pack(Packing::Words(words)),
        Instr::Post { root: false },
        Instr::Take { root: false },
        Instr::Unpack(Unpacking::Folds(folds)),
        Instr::Pack(Packing::Gather(Output::Word(2, false))),
        Instr::Post { root: true },
        Instr::Take { root: true },
        Instr::Write(Output::Word(2, false)),
        Instr::Halt,
    ]?;
    Ok(Code {
        list: Sequence::from_vec(list),
        words: 3,
        arrays,
        loose: 0,
    })
}

/// How a code without tables ends on so many ranks within a limit.
fn run(alloc: Global, code: &Code, ranks: u32, limit: u64) -> Result<LockEnd, NoMemory>
    requires some { 1 ≤ ranks }
    requires few { ranks ≤ 32 }
{
    let tables = Tables {
        list: Sequence::new(alloc),
    };
    lockstep(alloc, code, &tables, ranks, limit)
}

/// Whether a run of a code ends so, and writes this.
fn ends(
    alloc: Global,
    code: &Code,
    ranks: u32,
    limit: u64,
    status: LockStatus,
    out: &[u8],
) -> Result<bool, NoMemory>
    requires some { 1 ≤ ranks }
    requires few { ranks ≤ 32 }
{
    let end = run(alloc, code, ranks, limit)?;
    Ok(end.status == status && end.out.as_slice() == out)
}

/// Whether Halt ends on one rank at limit 0, and writes nothing.
fn halt_ends(alloc: Global) -> Result<bool, NoMemory> {
    ends(alloc, &halt(alloc)?, 1, 0, LockStatus::Ended, b"")
}

/// Whether the sum is written on so many ranks within a limit.
fn sum_is_written(alloc: Global, ranks: u32, limit: u64) -> Result<bool, NoMemory>
    requires some { 1 ≤ ranks }
    requires few { ranks ≤ 32 }
{
    ends(
        alloc,
        &sum(alloc)?,
        ranks,
        limit,
        LockStatus::Ended,
        b"30\n",
    )
}

/// Whether the sum on 4 ranks stops within one instruction less than it needs, and writes nothing.
fn sum_stops(alloc: Global) -> Result<bool, NoMemory> {
    ends(alloc, &sum(alloc)?, 4, 11, LockStatus::Limit, b"")
}

#[test]
fn halt_ends_at_limit_0(rt: HostRuntime) -> Result<(), Fail> {
    assert!(rt; halt_ends(rt.alloc())?);
    Ok(())
}

#[test]
fn sums_over_ranks(rt: HostRuntime) -> Result<(), Fail> {
    assert!(rt; sum_is_written(rt.alloc(), 1, 12)?);
    assert!(rt; sum_is_written(rt.alloc(), 4, 100)?);
    Ok(())
}

#[test]
fn stops_one_below(rt: HostRuntime) -> Result<(), Fail> {
    assert!(rt; sum_stops(rt.alloc())?);
    Ok(())
}
