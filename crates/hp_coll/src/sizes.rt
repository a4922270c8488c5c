// Loose columns of all ranks as arrays.

ghost use Rattle.std.specs.Prelude.{◌≡◌, ◌≤◌, IfOk, length};
ghost use Rattle.std.specs.List.{AllByRecursion};
ghost use Rattle.hp_spmd.specs.declared.code.Code.{Code};
ghost use Rattle.hp_snippet.specs.Promises.{IsStraight, IsWork, LeavesShared, Performs};
ghost use Rattle.hp_coll.specs.Sealing.{MaySeal, sized, sizes_code, sizes_write};

use hp_spmd::instr::{Instr, Packing, Unpacking};
use hp_word::place::{NoMemory, Place};
use hp_word::sequence::Sequence;
use std::alloc::Global;

/// The instructions of the exchange.
fn instructions(
    alloc: Global,
    to: &Sequence<u32>,
    loose: &Sequence<u32>,
    at: Place,
) -> Result<Sequence<Instr>, NoMemory>
    requires { 1 ≤ length loose.now }
    ensures { IfOk result (λ list. list ≡ sizes_code to.now loose.now at) }
{
    let columns = loose.as_slice();
    let first = columns[0];
    let to = Sequence::from_slice(alloc, to.as_slice())?;
    let loose = Sequence::from_slice(alloc, columns)?;
    let mut list = Sequence::new(alloc);
    list.push(Instr::Pack(Packing::Sizes(first)))?;
    list.push(Instr::Post { root: false })?;
    list.push(Instr::Take { root: false })?;
    list.push(Instr::Unpack(Unpacking::Seal(to, loose, at)))?;
    Ok(list)
}

/// One exchange, after which these arrays are the loose columns of all ranks, one for one, each rank's part behind that of the
/// rank before it; `TooLong` at `at` on every rank where they are too long for an array. All else that a rank has stays.
/// `NoMemory` for want of memory alone.
#[tactic(auto, using(crate::proofs::Sealing::sizes_straight, crate::proofs::Sealing::sizes_work))]
pub fn sizes(
    alloc: Global,
    to: &Sequence<u32>,
    loose: &Sequence<u32>,
    at: Place,
) -> Result<Sequence<Instr>, NoMemory>
    requires some { 1 ≤ length loose.now }
    requires alike { length to.now ≡ length loose.now }
    ensures exact { IfOk result (λ list. list ≡ sizes_code to.now loose.now at) }
    ensures does { IfOk result (λ list. Performs (MaySeal to.now loose.now) (sized to.now loose.now at) (sizes_write to.now) list) }
    ensures form { IfOk result IsStraight }
    ensures shares { IfOk result (λ list. (code : Code) → AllByRecursion (LeavesShared code) list) }
    ensures work { IfOk result (IsWork 1) }
{
    let list = instructions(alloc, to, loose, at)?;
    Ok(list)
}
