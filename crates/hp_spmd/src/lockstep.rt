// The run in which all ranks take each instruction together.

ghost use Rattle.std.specs.Prelude.{◌≡◌, ◌≤◌, if◌then◌else◌, [], length, map, IfOk};
ghost use Rattle.std.specs.List.{All, range_with_len};
ghost use Rattle.hp_spmd.specs.Lockstep.{Answers, lockstep_of, run, state};
ghost use Rattle.hp_spmd.specs.Names.{is_halt};
ghost use Rattle.hp_spmd.specs.Ranks.{AreTogether};
ghost use Rattle.hp_spmd.specs.Store.{first_store, instr_at};
ghost use Rattle.hp_spmd.specs.declared.lockstep.LockStatus.TheVariants as lock;

use crate::code::Code;
use crate::instr::Instr;
use crate::lockstep::round::{RoundEnd, round};
use crate::store::Store;
use hp_word::place::{NoMemory, Place, TrapKind};
use hp_word::table::Tables;
use std::alloc::Global;

pub mod output;
pub mod post;
mod round;

/// How a lockstep run ended, and what it wrote.
#[derive(Drop)]
pub struct LockEnd {
    pub status: LockStatus,
    pub out: Vec<u8>,
}

/// How a lockstep run ended.
#[derive(Clone, Copy, PartialEq, Eq)]
pub enum LockStatus {
    /// The code came to its Halt.
    Ended,
    /// Some rank trapped; where several do at one instruction, the lowest one's trap.
    Trapped(Place, TrapKind),
    /// As many instructions were done as are allowed, and the code has not ended.
    Limit,
}

/// The first store of each rank.
fn first_stores(alloc: Global, code: &Code, ranks: u32) -> Result<Vec<Store>, NoMemory>
    requires some { 1 ≤ ranks }
    requires few { ranks ≤ 32 }
    ensures { IfOk result (λ it. it.items ≡ map (λ r. first_store code.now r ranks) (range_with_len 0 ranks)) }
{
    let mut stores = Vec::with_capacity(alloc, ranks as usize)?;
    for number in 0..ranks {
        stores.push(Store::new(alloc, code, number, ranks)?)?;
    }
    Ok(stores)
}

/// Whether an instruction is Halt.
fn halts(instr: &Instr) -> bool
    ensures { result ≡ is_halt instr.now }
{
    matches!(instr, Instr::Halt)
}

/// How a run ended that has come to its limit before the instruction at `at`.
#[tactic(auto, using(crate::proofs::LockRound::instr_here, crate::proofs::LockRound::instr_past))]
fn status_at_limit(code: &Code, at: u32) -> LockStatus
    ensures { result ≡ (if is_halt (instr_at code.now.list at) then lock.Ended else lock.Limit) }
{
    let Some(instr) = code.list.get(at as usize) else {
        return LockStatus::Ended;
    };
    if halts(instr) {
        LockStatus::Ended
    } else {
        LockStatus::Limit
    }
}

/// Takes one instruction after another, at most `limit`; the stores are then of no use.
fn rounds(
    alloc: Global,
    code: &Code,
    tables: &Tables,
    stores: &mut [Store],
    limit: u64,
) -> Result<LockEnd, NoMemory>
    requires some { 1 ≤ length stores.old }
    requires few { length stores.old ≤ 32 }
    requires ranks { AreTogether stores.old }
    requires executed { All (λ x. x.executed ≡ 0) stores.old }
    ensures { IfOk result (λ end. Answers (run code.now tables.now limit (state stores.old [])) end) }
{
    let mut out = Vec::new(alloc);
    let mut left = limit;
    while left > 0 {
        match round(alloc, code, tables, stores, &mut out)? {
            RoundEnd::Moved => {}
            RoundEnd::Ended => {
                return Ok(LockEnd {
                    status: LockStatus::Ended,
                    out,
                });
            }
            RoundEnd::Trapped(place, kind) => {
                return Ok(LockEnd {
                    status: LockStatus::Trapped(place, kind),
                    out,
                });
            }
        }
        left -= 1;
    }
    let status = status_at_limit(code, stores[0].position);
    Ok(LockEnd { status, out })
}

/// Runs a code over these tables on so many ranks, of 1 to 32, which take each instruction together; at most
/// `limit` instructions are done.
pub fn lockstep(
    alloc: Global,
    code: &Code,
    tables: &Tables,
    ranks: u32,
    limit: u64,
) -> Result<LockEnd, NoMemory>
    requires some { 1 ≤ ranks }
    requires few { ranks ≤ 32 }
    ensures { IfOk result (λ end. Answers (lockstep_of code.now tables.now ranks limit) end) }
{
    let mut stores = first_stores(alloc, code, ranks)?;
    rounds(alloc, code, tables, &mut stores, limit)
}
