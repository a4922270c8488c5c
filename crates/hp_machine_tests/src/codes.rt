// Codes made by hand: an exchange, a scan, a trap on one rank alone, and turns of a loop.

ghost use Rattle.std.specs.Prelude.{◌≡◌, IfOk};
ghost use Rattle.hp_machine_tests.specs.Codes.{divided, own_sum, scanned, summed};

use hp_lattice::dist::Dist;
use hp_spmd::code::Code;
use hp_spmd::instr::{Folding, Instr, Loop, Output, Packing, Unpacking};
use hp_word::elem::Elem;
use hp_word::fold::FoldKind;
use hp_word::place::{NoMemory, Place};
use hp_word::sequence::Sequence;
use hp_word::word::CalcOp;
use std::alloc::Global;

/// The place of all instructions that may trap.
pub const AT: Place = Place { line: 1, col: 1 };

/// Sums a rank's own cells of the array 0 into the word 2.
fn own_sum(alloc: Global) -> Result<Loop, NoMemory>
    ensures { IfOk result (λ it. it ≡ own_sum) }
{
    let fold = Folding {
        word: 2,
        kind: FoldKind::Sum,
        value: 0,
    };
    let inputs = Sequence::from_slice(alloc, &[0])?;
    let folds = Sequence::from_slice(alloc, &[fold])?;
    let lets = Sequence::from_vec(vec![in alloc; Elem::Input(0)]?);
    Ok(Loop {
        leader: 0,
        inputs,
        halos: Sequence::new(alloc),
        lets,
        outs: Sequence::new(alloc),
        folds,
    })
}

/// Instructions that print the sum of 1 to 10.
fn summed_list(alloc: Global) -> Result<Sequence<Instr>, NoMemory>
    ensures { IfOk result (λ list. list ≡ summed) }
{
    let own = own_sum(alloc)?;
    let words = Sequence::from_slice(alloc, &[2])?;
    let folds = Sequence::from_slice(alloc, &[(2, FoldKind::Sum)])?;
    let list = vec![in alloc;
        Instr::Const { to: 0, value: 1 },
        Instr::Const { to: 1, value: 10 },
        Instr::Range {
            to: 0,
            first: 0,
            last: 1,
            at: AT
        },
        Instr::Loop(own),
        Instr::Pack(Packing::Words(words)),
        Instr::Post { root: false },
        Instr::Take { root: false },
        Instr::Unpack(Unpacking::Folds(folds)),
        Instr::Pack(Packing::Gather(Output::Word(2, false))),
        Instr::Post { root: true },
        Instr::Take { root: true },
        Instr::Write(Output::Word(2, false)),
        Instr::Halt,
    ]?;
    Ok(Sequence::from_vec(list))
}

/// An exchange: the sum of 1 to 10, printed.
pub fn summed(alloc: Global) -> Result<Code, NoMemory> {
    let arrays = Sequence::from_slice(alloc, &[Dist::Block])?;
    let list = summed_list(alloc)?;
    Ok(Code {
        list,
        words: 3,
        arrays,
        loose: 0,
    })
}

/// Instructions that print the running sums of 1 to 5.
fn scanned_list(alloc: Global) -> Result<Sequence<Instr>, NoMemory>
    ensures { IfOk result (λ list. list ≡ scanned) }
{
    let own = own_sum(alloc)?;
    let part = Sequence::from_slice(alloc, &[3])?;
    let list = vec![in alloc;
        Instr::Const { to: 0, value: 1 },
        Instr::Const { to: 1, value: 5 },
        Instr::Range {
            to: 0,
            first: 0,
            last: 1,
            at: AT
        },
        Instr::Loop(own),
        Instr::Const { to: 4, value: 0 },
        Instr::Scan {
            to: 1,
            from: 0,
            start: 4,
            part: 3
        },
        Instr::Pack(Packing::Words(part)),
        Instr::Post { root: false },
        Instr::Take { root: false },
        Instr::Unpack(Unpacking::Below(4)),
        Instr::Scan {
            to: 1,
            from: 0,
            start: 4,
            part: 3
        },
        Instr::Pack(Packing::Gather(Output::List(1, false))),
        Instr::Post { root: true },
        Instr::Take { root: true },
        Instr::Write(Output::List(1, false)),
        Instr::Halt,
    ]?;
    Ok(Sequence::from_vec(list))
}

/// A scan: the running sums of 1 to 5, printed.
pub fn scanned(alloc: Global) -> Result<Code, NoMemory> {
    let arrays = Sequence::from_slice(alloc, &[Dist::Block, Dist::Block])?;
    let list = scanned_list(alloc)?;
    Ok(Code {
        list,
        words: 5,
        arrays,
        loose: 0,
    })
}

/// Instructions of which a division by 4 less the own sum traps.
fn divided_list(alloc: Global) -> Result<Sequence<Instr>, NoMemory>
    ensures { IfOk result (λ list. list ≡ divided) }
{
    let own = own_sum(alloc)?;
    let list = vec![in alloc;
        Instr::Const { to: 0, value: 1 },
        Instr::Const { to: 1, value: 4 },
        Instr::Range {
            to: 0,
            first: 0,
            last: 1,
            at: AT
        },
        Instr::Loop(own),
        Instr::Calc {
            to: 3,
            op: CalcOp::Sub,
            left: 1,
            right: 2,
            at: AT
        },
        Instr::Calc {
            to: 4,
            op: CalcOp::Div,
            left: 0,
            right: 3,
            at: AT
        },
        Instr::Halt,
    ]?;
    Ok(Sequence::from_vec(list))
}

/// A trap on one rank: of four, the last has the sum 4, and divides by 4 - 4.
pub fn divided(alloc: Global) -> Result<Code, NoMemory> {
    let arrays = Sequence::from_slice(alloc, &[Dist::Block])?;
    let list = divided_list(alloc)?;
    Ok(Code {
        list,
        words: 5,
        arrays,
        loose: 0,
    })
}

/// A loop: it counts from 3 down to 0.
pub fn counted(alloc: Global) -> Result<Code, NoMemory> {
    let list = vec![in alloc;
        Instr::Const { to: 0, value: 3 },
        Instr::Const { to: 1, value: 1 },
        Instr::Calc {
            to: 0,
            op: CalcOp::Sub,
            left: 0,
            right: 1,
            at: AT
        },
        Instr::Jump {
            target: 5,
            unless: Some(0)
        },
        Instr::Jump {
            target: 2,
            unless: None
        },
        Instr::Halt,
    ]?;
    Ok(Code {
        list: Sequence::from_vec(list),
        words: 2,
        arrays: Sequence::new(alloc),
        loose: 0,
    })
}
