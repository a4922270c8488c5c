// Reductions, scans, sizes and outputs, over arrays of which some ranks have no element.

ghost use Rattle.std.specs.Prelude.{◌≡◌, IfOk};
ghost use Rattle.hp_snippet_tests.specs.Coll.{folded, kept_rows, loop_of, parts_of, selected, summed};

use crate::codes::{add, ends};
use hp_coll::arrive::arrive;
use hp_coll::reduce::reduce;
use hp_coll::scan::scan;
use hp_coll::sizes::sizes;
use hp_lattice::dist::Dist;
use hp_spmd::code::Code;
use hp_spmd::instr::{Folding, Instr, Loop, Output, Target};
use hp_spmd::lockstep::LockStatus;
use hp_word::elem::Elem;
use hp_word::fold::FoldKind;
use hp_word::name::Name;
use hp_word::place::{NoMemory, Place};
use hp_word::sequence::Sequence;
use std::alloc::Global;
use std::test::Fail;

const AT: Place = Place { line: 1, col: 1 };

/// Folds the own cells of an array into a word.
fn loop_over(alloc: Global, array: u32, fold: Folding) -> Result<Loop, NoMemory>
    ensures { IfOk result (λ it. it ≡ loop_of array fold) }
{
    let inputs = Sequence::from_slice(alloc, &[array])?;
    let folds = Sequence::from_slice(alloc, &[fold])?;
    let lets = Sequence::from_vec(vec![in alloc; Elem::Input(0)]?);
    Ok(Loop {
        leader: array,
        inputs,
        halos: Sequence::new(alloc),
        lets,
        outs: Sequence::new(alloc),
        folds,
    })
}

/// The sum of ten threes in the word 4, and the least of 5 and 6 in the word 5, of each rank's own part.
fn parts(alloc: Global, sum: Folding, least: Folding) -> Result<Sequence<Instr>, NoMemory>
    ensures { IfOk result (λ list. list ≡ parts_of sum least) }
{
    let sum = loop_over(alloc, 0, sum)?;
    let least = loop_over(alloc, 1, least)?;
    let list = vec![in alloc;
        Instr::Const { to: 0, value: 3 },
        Instr::Const { to: 1, value: 10 },
        Instr::Const { to: 2, value: 5 },
        Instr::Const { to: 3, value: 6 },
        Instr::Fill {
            to: 0,
            value: 0,
            count: 1,
            at: AT
        },
        Instr::Range {
            to: 1,
            first: 2,
            last: 3,
            at: AT
        },
        Instr::Loop(sum),
        Instr::Loop(least),
    ]?;
    Ok(Sequence::from_vec(list))
}

/// The same over all ranks, written.
fn folds(alloc: Global) -> Result<Sequence<Instr>, NoMemory>
    ensures { IfOk result (λ list. list ≡ folded) }
{
    let sum = Folding {
        word: 4,
        kind: FoldKind::Sum,
        value: 0,
    };
    let least = Folding {
        word: 5,
        kind: FoldKind::Min,
        value: 0,
    };
    let folds = Sequence::from_slice(alloc, &[sum, least])?;
    let mut list = parts(alloc, sum, least)?;
    add(&mut list, reduce(alloc, &folds)?)?;
    add(&mut list, arrive(alloc, &Output::Word(4, false))?)?;
    add(&mut list, arrive(alloc, &Output::Word(5, false))?)?;
    Ok(list)
}

/// The running sums of 1 to 3, written.
fn sums(alloc: Global) -> Result<Sequence<Instr>, NoMemory>
    ensures { IfOk result (λ list. list ≡ summed) }
{
    let list = vec![in alloc;
        Instr::Const { to: 0, value: 1 },
        Instr::Const { to: 1, value: 3 },
        Instr::Range {
            to: 2,
            first: 0,
            last: 1,
            at: AT
        },
    ]?;
    let mut list = Sequence::from_vec(list);
    add(&mut list, scan(alloc, 3, 2, 6, 7)?)?;
    add(&mut list, arrive(alloc, &Output::List(3, false))?)?;
    Ok(list)
}

/// Of 1 to 8 those beside which a 1 stands among -3 to 4.
fn kept(alloc: Global) -> Result<Sequence<Instr>, NoMemory>
    ensures { IfOk result (λ list. list ≡ kept_rows) }
{
    let to = Target::Loose(Sequence::from_slice(alloc, &[0])?);
    let from = Sequence::from_slice(alloc, &[4])?;
    let list = vec![in alloc;
        Instr::Const { to: 0, value: -3 },
        Instr::Const { to: 2, value: 4 },
        Instr::Const { to: 1, value: 1 },
        Instr::Const { to: 3, value: 8 },
        Instr::Range {
            to: 4,
            first: 1,
            last: 3,
            at: AT
        },
        Instr::Range {
            to: 5,
            first: 0,
            last: 2,
            at: AT
        },
        Instr::Select { to, mask: 5, from },
    ]?;
    Ok(Sequence::from_vec(list))
}

/// These as an array, written as a list and as a table.
fn rows(alloc: Global) -> Result<Sequence<Instr>, NoMemory>
    ensures { IfOk result (λ list. list ≡ selected) }
{
    let to = Sequence::from_slice(alloc, &[6])?;
    let loose = Sequence::from_slice(alloc, &[0])?;
    let mut list = kept(alloc)?;
    add(&mut list, sizes(alloc, &to, &loose, AT)?)?;
    add(&mut list, arrive(alloc, &Output::List(6, false))?)?;
    let names = Sequence::from_vec(vec![in alloc; Name::of(alloc, b"v")?]?);
    add(&mut list, arrive(alloc, &Output::Table(to, names))?)?;
    Ok(list)
}

/// All of this, one after the other.
fn code(alloc: Global) -> Result<Code, NoMemory> {
    let block = Dist::Block;
    let dists = [block, block, block, block, block, block, Dist::Var];
    let arrays = Sequence::from_slice(alloc, &dists)?;
    let mut list = folds(alloc)?;
    add(&mut list, sums(alloc)?)?;
    add(&mut list, rows(alloc)?)?;
    list.push(Instr::Halt)?;
    Ok(Code {
        list,
        words: 8,
        arrays,
        loose: 1,
    })
}

/// Whether the code writes what is worked out by hand.
fn is_written(alloc: Global) -> Result<bool, NoMemory> {
    ends(
        alloc,
        &code(alloc)?,
        LockStatus::Ended,
        b"30\n5\n[1, 3, 6]\n[5]\nv\n5\n",
    )
}

#[test]
fn empty_parts_change_nothing(rt: HostRuntime) -> Result<(), Fail> {
    assert!(rt; is_written(rt.alloc())?);
    Ok(())
}
