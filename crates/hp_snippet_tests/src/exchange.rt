// Moves of arrays in pieces of unlike lengths, some of which are empty.

ghost use Rattle.std.specs.Prelude.{◌≡◌, IfOk};
ghost use Rattle.hp_snippet_tests.specs.Exchange.{aligned, begun, gathered, joined, kept_by, kept_parts, lying, surrounded, three_back};

use crate::codes::{add, ends};
use hp_coll::arrive::arrive;
use hp_coll::sizes::sizes;
use hp_exchange::concats::concat;
use hp_exchange::halos::halo;
use hp_exchange::moves::{align, rebalance, whole};
use hp_lattice::dist::Dist;
use hp_spmd::code::Code;
use hp_spmd::instr::{CheckRule, HaloFrom, Instr, Loop, Out, Output, Target};
use hp_spmd::lockstep::LockStatus;
use hp_word::elem::Elem;
use hp_word::place::{NoMemory, Place, TrapKind};
use hp_word::sequence::Sequence;
use std::alloc::Global;
use std::test::Fail;

const AT: Place = Place { line: 1, col: 1 };

/// 1 to 8, four zeros and four ones.
fn begin(alloc: Global) -> Result<Sequence<Instr>, NoMemory>
    ensures { IfOk result (λ list. list ≡ begun) }
{
    let list = vec![in alloc;
        Instr::Const { to: 0, value: 1 },
        Instr::Const { to: 1, value: 8 },
        Instr::Const { to: 2, value: 0 },
        Instr::Const { to: 3, value: 4 },
        Instr::Const { to: 4, value: 2 },
        Instr::Range {
            to: 0,
            first: 0,
            last: 1,
            at: AT
        },
        Instr::Fill {
            to: 1,
            value: 2,
            count: 3,
            at: AT
        },
        Instr::Fill {
            to: 2,
            value: 0,
            count: 3,
            at: AT
        },
    ]?;
    Ok(Sequence::from_vec(list))
}

/// What a mask keeps of 1 to 8.
fn keep(alloc: Global, mask: u32, to: u32) -> Result<Sequence<Instr>, NoMemory>
    ensures { IfOk result (λ list. list ≡ kept_by mask to) }
{
    let target = Target::Loose(Sequence::from_slice(alloc, &[1])?);
    let from = Sequence::from_slice(alloc, &[0])?;
    let list = vec![in alloc;
        Instr::Select {
            to: target,
            mask,
            from
        },
    ]?;
    let mut list = Sequence::from_vec(list);
    let to = Sequence::from_slice(alloc, &[to])?;
    let loose = Sequence::from_slice(alloc, &[1])?;
    add(&mut list, sizes(alloc, &to, &loose, AT)?)?;
    Ok(list)
}

/// 5 to 8 and 1 to 4, each in pieces on the ranks that had them, and no element.
fn parts(alloc: Global) -> Result<Sequence<Instr>, NoMemory>
    ensures { IfOk result (λ list. list ≡ kept_parts) }
{
    let mut list = begin(alloc)?;
    add(&mut list, concat(alloc, 1, 2, 0, 3, AT)?)?;
    add(&mut list, concat(alloc, 2, 1, 0, 4, AT)?)?;
    add(&mut list, keep(alloc, 3, 5)?)?;
    add(&mut list, keep(alloc, 4, 6)?)?;
    add(&mut list, keep(alloc, 1, 14)?)?;
    Ok(list)
}

/// 1 to 4 beside 5 to 8, as the second row of both, written.
fn beside(alloc: Global) -> Result<Sequence<Instr>, NoMemory>
    ensures { IfOk result (λ list. list ≡ aligned) }
{
    let mut list = align(alloc, 6, 5, 7)?;
    list.push(Instr::Stack {
        to: 8,
        from: Sequence::from_slice(alloc, &[5, 7])?,
        flat: false,
        at: AT,
    })?;
    list.push(Instr::Row {
        to: 9,
        matrix: 8,
        index: 4,
        at: AT,
    })?;
    add(&mut list, arrive(alloc, &Output::List(9, false))?)?;
    Ok(list)
}

/// 5 to 8 with zeros behind them, written.
fn behind(alloc: Global) -> Result<Sequence<Instr>, NoMemory>
    ensures { IfOk result (λ list. list ≡ joined) }
{
    let mut list = concat(alloc, 5, 1, 0, 10, AT)?;
    add(&mut list, arrive(alloc, &Output::List(10, false))?)?;
    Ok(list)
}

/// 1 to 4 and no element, whole on each rank, written.
fn gather(alloc: Global) -> Result<Sequence<Instr>, NoMemory>
    ensures { IfOk result (λ list. list ≡ gathered) }
{
    let from = Sequence::from_slice(alloc, &[6, 14])?;
    let to = Sequence::from_slice(alloc, &[11, 15])?;
    let mut list = whole(alloc, &from, &to)?;
    add(&mut list, arrive(alloc, &Output::List(11, false))?)?;
    add(&mut list, arrive(alloc, &Output::List(15, false))?)?;
    Ok(list)
}

/// For each place the element three places before it.
fn back(alloc: Global) -> Result<Loop, NoMemory>
    ensures { IfOk result (λ it. it ≡ three_back) }
{
    let halos = Sequence::from_slice(alloc, &[HaloFrom::Loose(2, 3)])?;
    let outs = Sequence::from_slice(
        alloc,
        &[Out {
            array: 13,
            value: 0,
        }],
    )?;
    let lets = Sequence::from_vec(vec![in alloc; Elem::Near(0, -3)]?);
    Ok(Loop {
        leader: 12,
        inputs: Sequence::new(alloc),
        halos,
        lets,
        outs,
        folds: Sequence::new(alloc),
    })
}

/// 5 to 8 in blocks, and of them what stands three places before each, written.
fn surround(alloc: Global) -> Result<Sequence<Instr>, NoMemory>
    ensures { IfOk result (λ list. list ≡ surrounded) }
{
    let mut list = rebalance(alloc, 5, 12)?;
    add(&mut list, halo(alloc, 12, 3, 2)?)?;
    list.push(Instr::Loop(back(alloc)?))?;
    add(&mut list, arrive(alloc, &Output::List(13, false))?)?;
    Ok(list)
}

/// How the arrays lie.
fn distributions(alloc: Global) -> Result<Sequence<Dist>, NoMemory>
    ensures { IfOk result (λ dists. dists ≡ lying) }
{
    let (block, var, rep) = (Dist::Block, Dist::Var, Dist::Rep);
    let dists = [
        block, block, block, block, block, var, var, var, var, var, block, rep, block, block, var,
        rep,
    ];
    Ok(Sequence::from_slice(alloc, &dists)?)
}

/// A look at the lengths of what two masks keep, of which one keeps no element.
fn uneven(alloc: Global) -> Result<Code, NoMemory> {
    let mut list = parts(alloc)?;
    list.push(Instr::Check {
        arrays: Sequence::from_slice(alloc, &[5, 14])?,
        rule: CheckRule::Equal,
        at: AT,
    })?;
    list.push(Instr::Halt)?;
    Ok(Code {
        list,
        words: 5,
        arrays: distributions(alloc)?,
        loose: 3,
    })
}

/// All of this, one after the other.
fn code(alloc: Global) -> Result<Code, NoMemory> {
    let arrays = distributions(alloc)?;
    let mut list = parts(alloc)?;
    add(&mut list, beside(alloc)?)?;
    add(&mut list, behind(alloc)?)?;
    add(&mut list, gather(alloc)?)?;
    add(&mut list, surround(alloc)?)?;
    list.push(Instr::Halt)?;
    Ok(Code {
        list,
        words: 5,
        arrays,
        loose: 3,
    })
}

/// Whether the code writes what is worked out by hand.
fn is_written(alloc: Global) -> Result<bool, NoMemory> {
    let out = b"[1, 2, 3, 4]\n[5, 6, 7, 8, 0, 0, 0, 0]\n[1, 2, 3, 4]\n[]\n[0, 0, 0, 5]\n";
    ends(alloc, &code(alloc)?, LockStatus::Ended, out)
}

#[test]
fn each_rank_gets_its_range(rt: HostRuntime) -> Result<(), Fail> {
    assert!(rt; is_written(rt.alloc())?);
    Ok(())
}

/// Whether all ranks trap where the lengths are looked at.
fn is_trapped(alloc: Global) -> Result<bool, NoMemory> {
    let status = LockStatus::Trapped(AT, TrapKind::Mismatch);
    ends(alloc, &uneven(alloc)?, status, b"")
}

#[test]
fn unlike_lengths_trap(rt: HostRuntime) -> Result<(), Fail> {
    assert!(rt; is_trapped(rt.alloc())?);
    Ok(())
}
