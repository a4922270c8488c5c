// The constraints of a program of one operation, which reads a table of two columns.

ghost use Rattle.std.specs.Prelude.{◌≡◌};
ghost use Rattle.hp_air.specs.Frames.{node_slot};

use hp_air::air::Air;
use hp_air::constraint::{Constraint, Relation};
use hp_air::node::Node;
use hp_air::slot::Slot;
use hp_air::what::{Op, What};
use hp_constrain::constraints::constraints;
use hp_word::place::{NoMemory, NodeId, Place};
use hp_word::sequence::Sequence;
use sqlite_items::Items;
use std::alloc::Global;
use std::test::*;

/// A column of the expression 0.
fn column(column: u32) -> Slot
    ensures { result ≡ node_slot 0 column }
{
    Slot {
        node: Some(NodeId(0)),
        var: None,
        column,
        matrix: false,
        balanced: false,
    }
}

/// A program that reads the first table.
fn reading(alloc: Global) -> Result<Air, NoMemory> {
    let what = What::Read {
        outs: Sequence::from_vec(vec![in alloc; 0, 1]?),
        table: 0,
    };
    let op = Op {
        at: Place { line: 1, col: 1 },
        what,
    };
    Ok(Air {
        slots: Sequence::from_vec(vec![in alloc; column(0), column(1)]?),
        words: 0,
        body: Items::from_vec(vec![in alloc; Node::Do(op)]?),
    })
}

/// Whether the columns are equal as those of a frame, and then as those of a table.
fn are_equal_twice(list: &[Constraint]) -> bool {
    let first = Constraint {
        low: 0,
        relation: Relation::Same,
        high: 1,
    };
    let second = Constraint {
        low: 1,
        relation: Relation::Same,
        high: 0,
    };
    list == [second, first, first, second].as_slice()
}

#[test]
fn columns_of_a_table(rt: HostRuntime) -> Result<(), Fail> {
    let alloc = rt.alloc();
    let air = reading(alloc)?;
    let list = constraints(alloc, &air)?;
    assert!(rt; are_equal_twice(list.as_slice()));
    Ok(())
}
