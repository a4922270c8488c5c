// A script's program with loops, and how its arrays lie on the ranks.

ghost use Rattle.std.specs.Prelude.{IfOk};
ghost use Rattle.hp_script.specs.Checked.{Checked};
ghost use Rattle.hp_compile.specs.Placing.{IsProgramOf};

use crate::greatest::greatest_dists;
use hp_air::laws::constraint_laws;
use hp_lattice::dist::Dists;
use hp_normal::normalize::normalize;
use hp_parfor::build::build;
use hp_parfor::parfors::Parfors;
use hp_script::typed::Typed;
use hp_word::place::NoMemory;
use std::alloc::Global;

/// A program with loops, and the distribution of each of its slots.
#[derive(Drop)]
pub struct Placed {
    pub parfors: Parfors,
    pub dists: Dists,
}

/// The program with loops of a script in which no rule breaks, and the greatest distributions of its slots, by which it
/// can run.
pub fn place(alloc: Global, typed: &Typed) -> Result<Placed, NoMemory>
    requires { Checked typed.now }
    ensures { IfOk result (λ made. IsProgramOf typed.now made.parfors made.dists) }
{
    constraint_laws();
    let air = normalize(alloc, typed)?;
    let dists = greatest_dists(alloc, &air)?;
    let parfors = build(alloc, &air)?;
    Ok(Placed { parfors, dists })
}
