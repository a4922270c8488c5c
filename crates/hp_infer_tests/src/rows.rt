// The constraints of short scripts. The unknowns are the scripts' variables, column by column, and then the values of
// their expressions.

use crate::counted::{Found, add_equal, add_up, at_most, inferred, up};
use hp_air::constraint::Constraint;
use hp_lattice::dist::Dist;
use hp_word::place::NoMemory;
use std::alloc::Global;
use std::test::*;

/// Whether the first unknowns lie so, and it took so many steps.
fn lies(found: &Option<Found>, first: &[Dist], steps: u64) -> bool {
    let Some(found) = found else {
        return false;
    };
    found.steps == steps && found.dists.list.as_slice().starts_with(first)
}

/// `f = DataFrame(v = collect(1:8))`, `g = filter(f, :v .> 4)`, `s = stencil(x -> x[-1] + x[0] + x[1], g.v)`,
/// `println(s)`.
fn neighbours(alloc: Global) -> Result<Vec<Constraint>, NoMemory> {
    let mut list = Vec::new(alloc);
    let before = [(4, 3), (0, 4), (5, 0), (6, 5), (7, 6), (7, 5)];
    add_equal(&mut list, before.as_slice())?;
    list.push(at_most(8, Dist::Var))?;
    add_up(&mut list, [(8, 5)].as_slice())?;
    add_equal(&mut list, [(1, 8), (9, 1)].as_slice())?;
    add_up(&mut list, [(11, 9), (10, 11)].as_slice())?;
    add_equal(&mut list, [(2, 10), (12, 2)].as_slice())?;
    Ok(list)
}

#[test]
fn filtered_and_dealt_out_anew(rt: HostRuntime) -> Result<(), NoMemory> {
    let found = inferred(rt.alloc(), neighbours(rt.alloc())?, 13)?;
    let dists = [Dist::Block, Dist::Var, Dist::Block];
    assert!(rt; lies(&found, dists.as_slice(), 28));
    Ok(())
}

/// `x = fill(1, 4)`, `y = x .+ 1`, `println(y[2])`.
fn element(alloc: Global) -> Result<Vec<Constraint>, NoMemory> {
    let mut list = Vec::new(alloc);
    let pairs = [(0, 2), (3, 0), (4, 3), (1, 4), (5, 1)];
    add_equal(&mut list, pairs.as_slice())?;
    list.push(at_most(5, Dist::Rep))?;
    Ok(list)
}

#[test]
fn whole_for_one_element(rt: HostRuntime) -> Result<(), NoMemory> {
    let found = inferred(rt.alloc(), element(rt.alloc())?, 6)?;
    assert!(rt; lies(&found, [Dist::Rep; 6].as_slice(), 21));
    Ok(())
}

/// `x = fill(2, 3)`, `y = x .+ x`, `z = collect(1:3)`, `println(y[1])`, `println(sum(z))`.
fn two_parts(alloc: Global) -> Result<Vec<Constraint>, NoMemory> {
    let mut list = Vec::new(alloc);
    let pairs = [
        (0, 3),
        (4, 0),
        (5, 0),
        (6, 4),
        (6, 5),
        (1, 6),
        (2, 7),
        (8, 1),
    ];
    add_equal(&mut list, pairs.as_slice())?;
    list.push(at_most(8, Dist::Rep))?;
    add_equal(&mut list, [(9, 2)].as_slice())?;
    Ok(list)
}

#[test]
fn one_part_whole_and_one_in_blocks(rt: HostRuntime) -> Result<(), NoMemory> {
    let found = inferred(rt.alloc(), two_parts(rt.alloc())?, 10)?;
    let dists = [Dist::Rep, Dist::Rep, Dist::Block];
    assert!(rt; lies(&found, dists.as_slice(), 32));
    Ok(())
}

/// Each column after the first lies as that, in a report of sales whose operations are those of `report`.
const COLUMNS: [(u32, u32); 24] = [
    (1, 0),
    (3, 2),
    (5, 4),
    (7, 6),
    (8, 6),
    (10, 9),
    (11, 9),
    (13, 12),
    (15, 14),
    (17, 16),
    (19, 18),
    (23, 22),
    (25, 24),
    (27, 26),
    (29, 28),
    (30, 28),
    (32, 31),
    (33, 31),
    (35, 34),
    (36, 34),
    (38, 37),
    (39, 37),
    (41, 40),
    (42, 40),
];

/// `s = read_csv("sales.csv", :store, :amount)`, `d = sort(read_csv("stores.csv", :store, :region), :store)`,
/// `big = filter(s, :amount .>= 50)`, `j = join(big, d, :store)`,
/// `a = aggregate(j, :region, total = sum(:amount), n = count())`, `write_csv(sort(a, :region))`.
fn report(alloc: Global) -> Result<Vec<Constraint>, NoMemory> {
    let mut list = Vec::new(alloc);
    add_equal(&mut list, COLUMNS.as_slice())?;
    add_equal(&mut list, [(12, 13), (0, 12), (1, 13), (14, 15)].as_slice())?;
    list.push(at_most(16, Dist::Rep))?;
    let mask = [
        (2, 16),
        (3, 17),
        (18, 0),
        (19, 1),
        (20, 19),
        (21, 20),
        (21, 18),
    ];
    add_equal(&mut list, mask.as_slice())?;
    list.push(at_most(22, Dist::Var))?;
    add_up(&mut list, [(22, 18)].as_slice())?;
    let sides = [(4, 22), (5, 23), (24, 4), (25, 5), (26, 2), (27, 3)];
    add_equal(&mut list, sides.as_slice())?;
    list.push(at_most(28, Dist::Var))?;
    add_up(&mut list, [(28, 24)].as_slice())?;
    list.push(up(26, 24))?;
    let joined = [(6, 28), (7, 29), (8, 30), (31, 6), (32, 7), (33, 8)];
    add_equal(&mut list, joined.as_slice())?;
    list.push(at_most(34, Dist::Var))?;
    add_up(&mut list, [(34, 31)].as_slice())?;
    let grouped = [(9, 34), (10, 35), (11, 36), (37, 9), (38, 10), (39, 11)];
    add_equal(&mut list, grouped.as_slice())?;
    list.push(at_most(40, Dist::Rep))?;
    Ok(list)
}

#[test]
fn sales_in_blocks_and_stores_whole(rt: HostRuntime) -> Result<(), NoMemory> {
    let list = report(rt.alloc())?;
    assert!(rt; list.len() == 118);
    let found = inferred(rt.alloc(), list, 43)?;
    let sales = Dist::Block;
    let stores = Dist::Rep;
    let dists = [sales, sales, stores, stores, Dist::Var, Dist::Var];
    assert!(rt; lies(&found, dists.as_slice(), 182));
    Ok(())
}

#[test]
fn no_such_unknown(rt: HostRuntime) -> Result<(), NoMemory> {
    let mut list = Vec::new(rt.alloc());
    list.push(up(0, 1))?;
    assert!(rt; inferred(rt.alloc(), list, 1)?.is_none());
    Ok(())
}
