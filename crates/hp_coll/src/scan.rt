// Running sums over all ranks.

ghost use Rattle.std.specs.Prelude.{◌≡◌, IfOk};
ghost use Rattle.std.specs.List.{AllByRecursion};
ghost use Rattle.hp_spmd.specs.declared.code.Code.{Code};
ghost use Rattle.hp_spmd.specs.declared.instr.Instr.TheVariants as instr;
ghost use Rattle.hp_spmd.specs.Spread.{LiesAs};
ghost use Rattle.hp_spmd.specs.Store.{dist_at};
ghost use Rattle.hp_snippet.specs.Promises.{IsStraight, IsWork, LeavesShared, Performs};
ghost use Rattle.hp_coll.specs.Scanning.{MayScan, scan_code, scan_writes, scanned};

use hp_spmd::instr::{Instr, Packing, Unpacking};
use hp_word::place::NoMemory;
use hp_word::sequence::Sequence;
use std::alloc::Global;

/// The running sums of a rank's own part behind the word `start`.
fn sums(to: u32, from: u32, part: u32, start: u32) -> Instr
    ensures { result ≡ instr.Scan to from start part }
{
    Instr::Scan {
        to,
        from,
        start,
        part,
    }
}

/// The instructions of the scan.
fn instructions(
    alloc: Global,
    to: u32,
    from: u32,
    part: u32,
    start: u32,
) -> Result<Sequence<Instr>, NoMemory>
    ensures { IfOk result (λ list. list ≡ scan_code to from part start) }
{
    let own = Sequence::from_slice(alloc, &[part])?;
    let first = sums(to, from, part, start);
    let again = sums(to, from, part, start);
    let list = vec![in alloc;
        Instr::Const {
            to: start,
            value: 0
        },
        first,
        Instr::Pack(Packing::Words(own)),
        Instr::Post { root: false },
        Instr::Take { root: false },
        Instr::Unpack(Unpacking::Below(start)),
        again,
    ]?;
    Ok(Sequence::from_vec(list))
}

/// The array `to` gets the running sums of `from`, which lies in pieces of any lengths, cut as that. The words `part` and
/// `start` are each rank's own behind it: the sum of its part, and that of the parts before it. All else that a rank has
/// stays. `NoMemory` for want of memory alone.
#[tactic(auto, using(crate::proofs::Scanning::list_scans, crate::proofs::Scanning::scan_straight, crate::proofs::Scanning::scan_work))]
pub fn scan(
    alloc: Global,
    to: u32,
    from: u32,
    part: u32,
    start: u32,
) -> Result<Sequence<Instr>, NoMemory>
    ensures exact { IfOk result (λ list. list ≡ scan_code to from part start) }
    ensures does { IfOk result (λ list. Performs (MayScan to from part start) (scanned to from part start) (scan_writes to part start) list) }
    ensures form { IfOk result IsStraight }
    ensures shares { IfOk result (λ list. (code : Code) → LiesAs (dist_at code.arrays from) (dist_at code.arrays to) → AllByRecursion (LeavesShared code) list) }
    ensures work { IfOk result (IsWork 1) }
{
    let list = instructions(alloc, to, from, part, start)?;
    Ok(list)
}
