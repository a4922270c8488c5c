// An inference with its count of steps, and constraints by the pairs of unknowns that they are on.

ghost use Rattle.std.specs.Prelude.{◌≡◌, ◌<◌, true};
ghost use Rattle.hp_infer.specs.Systems.{AreWithin};

use hp_air::constraint::{Constraint, Relation};
use hp_infer::infer::{Work, infer};
use hp_infer::steps::Steps;
use hp_lattice::dist::{Dist, Dists};
use hp_word::place::NoMemory;
use std::alloc::Global;
use std::marker::Brand;
use std::sync::ledger::{Blank, Ledger};

/// The greatest solution, and the steps that it took.
#[derive(Drop)]
pub struct Found {
    pub dists: Dists,
    pub steps: u64,
}

/// Whether each constraint names unknowns below a count.
fn are_within(constraints: &[Constraint], unknowns: u32) -> bool
    ensures { result ≡ true → AreWithin unknowns constraints.now }
{
    for constraint in constraints {
        if constraint.low >= unknowns || constraint.high >= unknowns {
            return false;
        }
    }
    true
}

/// Infers on a new ledger, and says how many steps that took.
fn steps_of<L: Ledger>(blank: Blank, work: &mut Work) -> u64
    requires name { blank.name ≡ L.name }
    requires parts { blank.parts ≡ L.parts }
    requires some { 0 < blank.parts }
{
    let mut steps = Steps::<L>::new(blank);
    infer(work, &mut steps);
    steps.taken()
}

/// The greatest solution of constraints; none where one names an unknown that there is not.
pub fn inferred(
    alloc: Global,
    constraints: Vec<Constraint>,
    unknowns: u32,
) -> Result<Option<Found>, NoMemory> {
    if constraints.len() > u32::MAX as usize || !are_within(constraints.as_slice(), unknowns) {
        return Ok(None);
    }
    let mut work = Work::new(alloc, constraints, unknowns)?;
    let steps = steps_of::<Brand>(Blank::new(1), &mut work);
    Ok(Some(Found {
        dists: work.into_dists(),
        steps,
    }))
}

/// Each of these pairs lies alike.
pub fn add_equal(list: &mut Vec<Constraint>, pairs: &[(u32, u32)]) -> Result<(), NoMemory> {
    for (a, b) in pairs {
        list.push(same(*a, *b))?;
        list.push(same(*b, *a))?;
    }
    Ok(())
}

fn same(low: u32, high: u32) -> Constraint {
    Constraint {
        low,
        relation: Relation::Same,
        high,
    }
}

/// The two of each of these pairs are up to each other.
pub fn add_up(list: &mut Vec<Constraint>, pairs: &[(u32, u32)]) -> Result<(), NoMemory> {
    for (a, b) in pairs {
        list.push(up(*a, *b))?;
        list.push(up(*b, *a))?;
    }
    Ok(())
}

/// The first is up to the second.
pub fn up(low: u32, high: u32) -> Constraint {
    Constraint {
        low,
        relation: Relation::Up,
        high,
    }
}

/// Lies at most so.
pub fn at_most(unknown: u32, limit: Dist) -> Constraint {
    Constraint {
        low: unknown,
        relation: Relation::AtMost(limit),
        high: unknown,
    }
}
