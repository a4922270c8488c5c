// The inference beside plain rounds, each of which evaluates all constraints in order until one changes nothing.

use crate::counted::{add_equal, at_most, inferred};
use hp_air::constraint::{Constraint, Relation};
use hp_lattice::dist::{Dist, meet, up};
use hp_word::place::NoMemory;
use std::alloc::Global;
use std::test::*;

/// How many lines the script has that prints an element.
const LINES: u32 = 200;

/// `x1 = fill(1, 4)`, then `xi = xj .+ 1` for each i up to 200 with j one less, then `println(x200[1])`. The variables
/// come first, then the values in the order of the text: of each line what is read, and the sum.
fn lines(alloc: Global) -> Result<Vec<Constraint>, NoMemory> {
    let mut list = Vec::new(alloc);
    add_equal(&mut list, [(0, LINES)].as_slice())?;
    for line in 1..LINES {
        let read = LINES - 1 + 2 * line;
        let sum = LINES + 2 * line;
        let pairs = [(read, line - 1), (sum, read), (line, sum)];
        add_equal(&mut list, pairs.as_slice())?;
    }
    let last = 3 * LINES - 1;
    add_equal(&mut list, [(last, LINES - 1)].as_slice())?;
    list.push(at_most(last, Dist::Rep))?;
    Ok(list)
}

/// What a constraint leaves its low unknown, where that is less.
fn lowered(constraint: &Constraint, dists: &[Dist]) -> Option<Dist> {
    let low = *dists.get(constraint.low as usize)?;
    let high = *dists.get(constraint.high as usize)?;
    let most = match constraint.relation {
        Relation::Same => high,
        Relation::Up => up(high),
        Relation::AtMost(limit) => limit,
    };
    let met = meet(low, most);
    if met == low { None } else { Some(met) }
}

/// A round; whether it changed anything.
fn round(constraints: &[Constraint], dists: &mut [Dist]) -> bool {
    let mut changed = false;
    for constraint in constraints {
        if let Some(dist) = lowered(constraint, dists) {
            if let Some(place) = dists.get_mut(constraint.low as usize) {
                *place = dist;
                changed = true;
            }
        }
    }
    changed
}

/// How many rounds it takes; an unknown falls at most twice, so that there are no more than two for each and one more.
fn rounds(constraints: &[Constraint], dists: &mut [Dist]) -> usize {
    for done in 0..2 * dists.len() {
        if !round(constraints, dists) {
            return done + 1;
        }
    }
    2 * dists.len() + 1
}

#[test]
fn three_steps_where_rounds_take_hundreds(rt: HostRuntime) -> Result<(), NoMemory> {
    let list = lines(rt.alloc())?;
    assert!(rt; list.len() == 1199);
    let mut dists = vec![in rt.alloc(); Dist::Block; 600]?;
    let rounds = rounds(list.as_slice(), dists.as_mut_slice());
    // 720,599 evaluations.
    assert!(rt; rounds == 601);
    let Some(found) = inferred(rt.alloc(), list, 600)? else {
        assert!(rt; false);
        return Ok(());
    };
    assert!(rt; found.steps == 2397 && found.dists.list.as_slice() == dists.as_slice());
    assert!(rt;
        found
            .dists
            .list
            .as_slice()
            .iter()
            .all(|dist| *dist == Dist::Rep)
    );
    Ok(())
}
