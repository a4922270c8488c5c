// Codes in parts, and what they write.

ghost use Rattle.std.specs.Prelude.{◌≡◌, ◌≤◌, ◌++◌, OnOk};

use hp_spmd::code::Code;
use hp_spmd::instr::Instr;
use hp_spmd::lockstep::{LockStatus, lockstep};
use hp_word::place::NoMemory;
use hp_word::sequence::Sequence;
use hp_word::table::Tables;
use std::alloc::Global;

/// Puts instructions behind others.
pub fn add(list: &mut Sequence<Instr>, more: Sequence<Instr>) -> Result<(), NoMemory>
    ensures { OnOk result (list.new ≡ list.old ++ more) }
{
    for instr in more.into_vec() {
        list.push(instr)?;
    }
    Ok(())
}

/// Whether a code without tables comes to this end on so many ranks, and writes this.
fn ends_on(
    alloc: Global,
    code: &Code,
    ranks: u32,
    status: LockStatus,
    out: &[u8],
) -> Result<bool, NoMemory>
    requires some { 1 ≤ ranks }
    requires few { ranks ≤ 32 }
{
    let tables = Tables {
        list: Sequence::new(alloc),
    };
    let end = lockstep(alloc, code, &tables, ranks, 1000)?;
    Ok(end.status == status && end.out.as_slice() == out)
}

/// Whether it does on each of 1 to 6 ranks.
pub fn ends(alloc: Global, code: &Code, status: LockStatus, out: &[u8]) -> Result<bool, NoMemory> {
    for ranks in 1..7 {
        if !ends_on(alloc, code, ranks, status, out)? {
            return Ok(false);
        }
    }
    Ok(true)
}
