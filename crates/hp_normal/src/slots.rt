// The slots of a program: one for each array of its script.

ghost use Rattle.std.specs.Prelude.{◌≡◌, ◌∷◌, [], ◌++◌, ◌+◌, map, Some, None, OnOk, IfOk};
ghost use Rattle.std.specs.List.{range_with_len};
ghost use Rattle.std.specs.Option.{option_copied};
ghost use Rattle.hp_air.specs.Unknowns.{width};
ghost use Rattle.hp_air.specs.Frames.{node_slot, var_slot, balanced_slot};
ghost use Rattle.hp_flat.specs.Homes.{is_matrix};
ghost use Rattle.hp_normal.specs.SlotsHeld.{columns_for, var_slots, node_slots};

use crate::spans::{number_of, width_of};
use hp_air::slot::Slot;
use hp_script::typed::{Shape, Var};
use hp_word::place::{NoMemory, NodeId};
use std::alloc::Global;

/// Whether a value is a matrix.
fn is_matrix(shape: Option<&Shape>) -> bool
    ensures { result ≡ is_matrix (option_copied shape.entry) }
{
    match shape {
        Some(shape) => match shape {
            Shape::Matrix => true,
            Shape::Int | Shape::Bool | Shape::Ints | Shape::Bools | Shape::Frame(_) => false,
        },
        None => false,
    }
}

/// Adds the slots of the columns of a value, by that of the first.
fn add_columns(slots: &mut Vec<Slot>, first: Slot, shape: Option<&Shape>) -> Result<(), NoMemory>
    ensures { OnOk result (slots.new.items ≡ slots.old.items ++ columns_for first (option_copied shape.entry)) }
{
    let matrix = is_matrix(shape);
    for column in 0..number_of(width_of(shape))? {
        slots.push(Slot {
            node: first.node,
            var: first.var,
            column,
            matrix,
            balanced: first.balanced,
        })?;
    }
    Ok(())
}

/// Adds the slots of the variables.
fn add_vars(slots: &mut Vec<Slot>, vars: &[Var]) -> Result<(), NoMemory>
    ensures { OnOk result (slots.new.items ≡ slots.old.items ++ var_slots 0 vars.now) }
{
    for (place, var) in vars.iter().enumerate() {
        let first = Slot {
            node: None,
            var: Some(number_of(place)?),
            column: 0,
            matrix: false,
            balanced: false,
        };
        add_columns(slots, first, Some(&var.shape))?;
    }
    Ok(())
}

/// Adds the slots of the expressions.
fn add_nodes(slots: &mut Vec<Slot>, shapes: &[Option<Shape>]) -> Result<(), NoMemory>
    ensures { OnOk result (slots.new.items ≡ slots.old.items ++ node_slots 0 shapes.now) }
{
    for (place, shape) in shapes.iter().enumerate() {
        let first = Slot {
            node: Some(NodeId(number_of(place)?)),
            var: None,
            column: 0,
            matrix: false,
            balanced: false,
        };
        add_columns(slots, first, shape.as_ref())?;
    }
    Ok(())
}

/// Adds the slots of the balanced copies of stencils.
fn add_balanced(slots: &mut Vec<Slot>, copies: &[u32]) -> Result<(), NoMemory>
    ensures { OnOk result (slots.new.items ≡ slots.old.items ++ map balanced_slot copies.now) }
{
    for node in copies {
        slots.push(Slot {
            node: Some(NodeId(*node)),
            var: None,
            column: 1,
            matrix: false,
            balanced: true,
        })?;
    }
    Ok(())
}

/// The slots of a script.
pub fn slots_with(
    alloc: Global,
    shapes: &[Option<Shape>],
    vars: &[Var],
    copies: &[u32],
) -> Result<Vec<Slot>, NoMemory>
    ensures { IfOk result (λ slots. slots.items ≡ var_slots 0 vars.now ++ node_slots 0 shapes.now ++ map balanced_slot copies.now) }
{
    let mut slots = Vec::new(alloc);
    add_vars(&mut slots, vars)?;
    add_nodes(&mut slots, shapes)?;
    add_balanced(&mut slots, copies)?;
    Ok(slots)
}
