// The constraints of an operation: its row of the table.

ghost use Rattle.std.specs.Prelude.{◌≡◌, ◌∷◌, [], map, IfOk, OnOk};
ghost use Rattle.hp_lattice.specs.declared.dist.Dist.TheVariants.{Rep, Var};
ghost use Rattle.hp_air.specs.Arrays.{arrays_of, Read, Copy, Stencil, Filter, Join, Group, Concat, Sort, Frame, ProductT};
ghost use Rattle.hp_air.specs.Constraints.{same, up_to, at_most, equal, equal_all, bounds_of};
ghost use Rattle.hp_constrain.specs.Listed.{constraint_of, Adds};

use hp_air::constraint::{Constraint, Relation};
use hp_air::what::What;
use hp_lattice::dist::Dist;
use hp_word::place::NoMemory;

/// An array lies at most as another.
fn as_much(low: u32, high: u32) -> Constraint
    ensures { result ≡ constraint_of (same low high) }
{
    Constraint {
        low,
        relation: Relation::Same,
        high,
    }
}

/// An array lies at most as another may where that is dealt out anew.
fn up_to(low: u32, high: u32) -> Constraint
    ensures { result ≡ constraint_of (up_to low high) }
{
    Constraint {
        low,
        relation: Relation::Up,
        high,
    }
}

/// An array lies at most so.
fn at_most(array: u32, limit: Dist) -> Constraint
    ensures { result ≡ constraint_of (at_most array limit) }
{
    Constraint {
        low: array,
        relation: Relation::AtMost(limit),
        high: array,
    }
}

/// Two arrays lie alike.
pub fn add_equal(list: &mut Vec<Constraint>, a: u32, b: u32) -> Result<(), NoMemory>
    ensures { OnOk result (Adds (equal a b) list.old.items list.new.items) }
{
    list.extend_from_slice([as_much(a, b), as_much(b, a)].as_slice())?;
    Ok(())
}

/// An array lies as each of these.
fn add_equal_all(list: &mut Vec<Constraint>, a: u32, others: &[u32]) -> Result<(), NoMemory>
    ensures { OnOk result (Adds (equal_all a others.now) list.old.items list.new.items) }
{
    for other in others {
        add_equal(list, a, *other)?;
    }
    Ok(())
}

/// The columns of a table lie alike.
#[tactic(auto, unfolding(hp_air::specs::Constraints::bounds_of))]
fn add_read(list: &mut Vec<Constraint>, outs: &[u32]) -> Result<(), NoMemory>
    ensures { OnOk result (Adds (bounds_of (Read outs.now)) list.old.items list.new.items) }
{
    match outs {
        [out, rest @ ..] => add_equal_all(list, *out, rest),
        [] => Ok(()),
    }
}

/// Copies lie as what they copy, one for one.
#[tactic(auto, unfolding(hp_air::specs::Constraints::bounds_of))]
fn add_copy(list: &mut Vec<Constraint>, outs: &[u32], ins: &[u32]) -> Result<(), NoMemory>
    ensures { OnOk result (Adds (bounds_of (Copy outs.now ins.now)) list.old.items list.new.items) }
{
    for i in 0..outs.len().min(ins.len()) {
        add_equal(list, outs[i], ins[i])?;
    }
    Ok(())
}

/// A stencil: the balanced copy is dealt out anew from the array, and the result from the balanced copy.
#[tactic(auto, unfolding(hp_air::specs::Constraints::bounds_of))]
fn add_stencil(
    list: &mut Vec<Constraint>,
    out: u32,
    array: u32,
    balanced: u32,
) -> Result<(), NoMemory>
    ensures { OnOk result (Adds (bounds_of (Stencil out array balanced)) list.old.items list.new.items) }
{
    list.extend_from_slice([
        up_to(balanced, array),
        up_to(array, balanced),
        up_to(out, balanced),
        up_to(balanced, out),
    ]
    .as_slice())?;
    Ok(())
}

/// A filter: the mask lies as the rows, and what is kept of them lies in pieces.
#[tactic(auto, unfolding(hp_air::specs::Constraints::bounds_of))]
fn add_filter(
    list: &mut Vec<Constraint>,
    outs: &[u32],
    ins: &[u32],
    mask: u32,
) -> Result<(), NoMemory>
    ensures { OnOk result (Adds (bounds_of (Filter outs.now ins.now mask)) list.old.items list.new.items) }
{
    if let ([kept, ..], [x, ..]) = (outs, ins) {
        list.extend_from_slice([
            as_much(mask, *x),
            as_much(*x, mask),
            at_most(*kept, Dist::Var),
            up_to(*kept, *x),
            up_to(*x, *kept),
        ]
        .as_slice())?;
    }
    Ok(())
}

/// A join: the joined rows lie in pieces, as the left side is dealt out anew; the right side lies in pieces where the
/// left one does, or whole.
#[tactic(auto, unfolding(hp_air::specs::Constraints::bounds_of))]
fn add_join(
    list: &mut Vec<Constraint>,
    outs: &[u32],
    lefts: &[u32],
    rights: &[u32],
) -> Result<(), NoMemory>
    ensures { OnOk result (Adds (bounds_of (Join outs.now lefts.now rights.now)) list.old.items list.new.items) }
{
    if let ([out, ..], [left, ..], [right, ..]) = (outs, lefts, rights) {
        list.extend_from_slice([
            at_most(*out, Dist::Var),
            up_to(*out, *left),
            up_to(*left, *out),
            up_to(*right, *left),
        ]
        .as_slice())?;
    }
    Ok(())
}

/// An aggregate: the groups lie in pieces, as the rows are dealt out anew.
#[tactic(auto, unfolding(hp_air::specs::Constraints::bounds_of))]
fn add_group(list: &mut Vec<Constraint>, outs: &[u32], ins: &[u32]) -> Result<(), NoMemory>
    ensures { OnOk result (Adds (bounds_of (Group outs.now ins.now)) list.old.items list.new.items) }
{
    if let ([out, ..], [x, ..]) = (outs, ins) {
        list.extend_from_slice([
            at_most(*out, Dist::Var),
            up_to(*out, *x),
            up_to(*x, *out),
        ].as_slice())?;
    }
    Ok(())
}

/// Two arrays one behind the other: both are dealt out anew.
#[tactic(auto, unfolding(hp_air::specs::Constraints::bounds_of))]
fn add_concat(list: &mut Vec<Constraint>, out: u32, left: u32, right: u32) -> Result<(), NoMemory>
    ensures { OnOk result (Adds (bounds_of (Concat out left right)) list.old.items list.new.items) }
{
    list.extend_from_slice([
        up_to(out, left),
        up_to(out, right),
        up_to(left, out),
        up_to(right, out),
    ]
    .as_slice())?;
    Ok(())
}

/// Sorted rows lie whole.
#[tactic(auto, unfolding(hp_air::specs::Constraints::bounds_of))]
fn add_sort(list: &mut Vec<Constraint>, outs: &[u32], ins: &[u32]) -> Result<(), NoMemory>
    ensures { OnOk result (Adds (bounds_of (Sort outs.now ins.now)) list.old.items list.new.items) }
{
    if let [out, ..] = outs {
        list.push(at_most(*out, Dist::Rep))?;
    }
    Ok(())
}

/// A frame: its first column lies as each array that it is made of.
#[tactic(auto, unfolding(hp_air::specs::Constraints::bounds_of))]
fn add_frame(list: &mut Vec<Constraint>, outs: &[u32], ins: &[u32]) -> Result<(), NoMemory>
    ensures { OnOk result (Adds (bounds_of (Frame outs.now ins.now)) list.old.items list.new.items) }
{
    match outs {
        [out, ..] => add_equal_all(list, *out, ins),
        [] => Ok(()),
    }
}

/// What is indexed by a word lies whole.
fn add_at(list: &mut Vec<Constraint>, array: u32) -> Result<(), NoMemory>
    ensures { OnOk result (Adds (at_most array Rep ∷ []) list.old.items list.new.items) }
{
    list.push(at_most(array, Dist::Rep))?;
    Ok(())
}

/// A product with a matrix that is transposed: its sides lie alike, and it lies whole.
#[tactic(auto, unfolding(hp_air::specs::Constraints::bounds_of))]
fn add_transposed(
    list: &mut Vec<Constraint>,
    out: u32,
    left: u32,
    right: u32,
) -> Result<(), NoMemory>
    ensures { OnOk result (Adds (bounds_of (ProductT out left right)) list.old.items list.new.items) }
{
    list.extend_from_slice([
        as_much(left, right),
        as_much(right, left),
        at_most(out, Dist::Rep),
    ]
    .as_slice())?;
    Ok(())
}

/// One array lies whole, and two others alike.
fn add_whole_and_equal(
    list: &mut Vec<Constraint>,
    whole: u32,
    a: u32,
    b: u32,
) -> Result<(), NoMemory>
    ensures { OnOk result (Adds (at_most whole Rep ∷ equal a b) list.old.items list.new.items) }
{
    list.extend_from_slice([at_most(whole, Dist::Rep), as_much(a, b), as_much(b, a)].as_slice())?;
    Ok(())
}

/// The constraints of an operation.
#[tactic(auto, unfolding(hp_air::specs::Arrays::arrays_of, hp_air::specs::Constraints::bounds_of))]
pub fn add_row(list: &mut Vec<Constraint>, what: &What) -> Result<(), NoMemory>
    ensures { OnOk result (Adds (bounds_of (arrays_of what.now)) list.old.items list.new.items) }
{
    match what {
        What::Read { outs, .. } => add_read(list, outs.as_slice()),
        What::Copy { outs, ins } => add_copy(list, outs.as_slice(), ins.as_slice()),
        What::Map { out, ins, .. } | What::Stack { out, ins } => {
            add_equal_all(list, *out, ins.as_slice())
        }
        What::Scan { out, array } => add_equal(list, *out, *array),
        What::Stencil {
            out,
            array,
            balanced,
            ..
        } => add_stencil(list, *out, *array, *balanced),
        What::Filter { outs, ins, mask } => {
            add_filter(list, outs.as_slice(), ins.as_slice(), *mask)
        }
        What::Join {
            outs,
            lefts,
            rights,
            ..
        } => add_join(list, outs.as_slice(), lefts.as_slice(), rights.as_slice()),
        What::Group { outs, ins, .. } => add_group(list, outs.as_slice(), ins.as_slice()),
        What::Concat { out, left, right } => add_concat(list, *out, *left, *right),
        What::Sort { outs, ins, .. } => add_sort(list, outs.as_slice(), ins.as_slice()),
        What::At { array, .. } => add_at(list, *array),
        What::Pick { out, array, index } => add_whole_and_equal(list, *array, *out, *index),
        What::Frame { outs, ins } => add_frame(list, outs.as_slice(), ins.as_slice()),
        What::Row { out, matrix, .. } => add_equal(list, *out, *matrix),
        What::Product { out, left, right } => add_whole_and_equal(list, *left, *out, *right),
        What::ProductT { out, left, right } => add_transposed(list, *out, *left, *right),
        What::Const { .. }
        | What::Calc { .. }
        | What::Length { .. }
        | What::Fill { .. }
        | What::Range { .. }
        | What::Reduce { .. }
        | What::PrintWord { .. }
        | What::PrintList { .. }
        | What::Export { .. } => Ok(()),
    }
}
