// A rank's block of a vector and the cells round it.

ghost use Rattle.std.specs.Prelude.{◌≡◌, IfOk};
ghost use Rattle.std.specs.List.{AllByRecursion};
ghost use Rattle.hp_spmd.specs.declared.code.Code.{Code as SpecCode};
ghost use Rattle.hp_snippet.specs.Promises.{IsStraight, IsWork, LeavesShared};
ghost use Rattle.hp_exchange.specs.Halos.{Leaves, Surrounds, halo_code};

use hp_spmd::instr::{Instr, Need, Packing, Unpacking};
use hp_word::place::NoMemory;
use hp_word::sequence::Sequence;
use std::alloc::Global;

/// The instructions of the exchange.
fn instructions(alloc: Global, array: u32, reach: u32, to: u32) -> Result<Sequence<Instr>, NoMemory>
    ensures { IfOk result (λ list. list ≡ halo_code array reach to) }
{
    let mut list = Sequence::new(alloc);
    let moved = Sequence::from_slice(alloc, &[array])?;
    list.push(Instr::Pack(Packing::Move(moved, Need::Wide(reach))))?;
    list.push(Instr::Post { root: false })?;
    list.push(Instr::Take { root: false })?;
    list.push(Instr::Unpack(Unpacking::Halo(to, array, reach)))?;
    Ok(list)
}

/// One exchange, after which the loose column `to` has on each rank the cells of its block of the vector `array`, with so many
/// more at both ends, 0 outside of the vector; they come from whatever ranks have them. All else that a rank has stays.
/// `NoMemory` for want of memory alone.
#[tactic(auto, using(crate::proofs::Haloing::halo_straight, crate::proofs::Haloing::halo_work))]
pub fn halo(alloc: Global, array: u32, reach: u32, to: u32) -> Result<Sequence<Instr>, NoMemory>
    ensures exact { IfOk result (λ list. list ≡ halo_code array reach to) }
    ensures does { IfOk result (λ list. Leaves array to list) }
    ensures gets { IfOk result (λ list. Surrounds array reach to list) }
    ensures form { IfOk result IsStraight }
    ensures shares { IfOk result (λ list. (code : SpecCode) → AllByRecursion (LeavesShared code) list) }
    ensures work { IfOk result (IsWork 1) }
{
    let list = instructions(alloc, array, reach, to)?;
    Ok(list)
}
