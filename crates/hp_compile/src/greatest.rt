// The greatest distributions of a program's slots.

ghost use Rattle.std.specs.Prelude.{◌≡◌, ◌<◌, length, IfOk};
ghost use Rattle.hp_air.specs.Nodes.{program_of};
ghost use Rattle.hp_air.specs.Placed.{dist_at, program_bounds};
ghost use Rattle.hp_air.specs.Solutions.{IsGreatest};
ghost use Rattle.hp_flat.specs.FlatLaws.{AreGreatest};

use hp_air::air::Air;
use hp_constrain::constraints::constraints;
use hp_infer::infer::{Work, infer};
use hp_infer::steps::Steps;
use hp_lattice::dist::Dists;
use hp_word::place::NoMemory;
use std::alloc::Global;
use std::marker::Brand;
use std::sync::ledger::{Blank, Ledger};

/// Infers on a new ledger.
fn settle<L: Ledger>(blank: Blank, work: &mut Work)
    requires name { blank.name ≡ L.name }
    requires parts { blank.parts ≡ L.parts }
    requires some { 0 < blank.parts }
    ensures greatest { IsGreatest (length work.new.dists) work.new.constraints (dist_at work.new.dists) }
    ensures constraints { work.new.constraints ≡ work.old.constraints }
    ensures unknowns { length work.new.dists ≡ length work.old.dists }
{
    let mut steps = Steps::<L>::new(blank);
    infer(work, &mut steps);
}

/// The greatest distributions of a program's slots, one for each: they meet what the program asks, and whatever meets that
/// lies at most so.
pub fn greatest_dists(alloc: Global, air: &Air) -> Result<Dists, NoMemory>
    ensures each { IfOk result (λ dists. length dists.list ≡ length air.now.slots) }
    ensures greatest { IfOk result (λ dists. AreGreatest (λ k. k < length air.now.slots) (program_bounds air.now.slots (program_of air.now.body)) (dist_at dists.list)) }
{
    let list = constraints(alloc, air)?;
    let mut work = Work::new(alloc, list, air.slots.len() as u32)?;
    settle::<Brand>(Blank::new(1), &mut work);
    Ok(work.into_dists())
}
