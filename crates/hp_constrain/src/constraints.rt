// The constraints of a program: its frames, and its operations at all depths.

ghost use Rattle.std.specs.Prelude.{◌≡◌, ◌≢◌, ◌<◌, ◌≤◌, ◌+◌, ◌*◌, ℕ, List, [], ◌∷◌, length, flat_map, IfOk, OnOk};
ghost use Rattle.std.specs.List.{AllByRecursion};
ghost use Rattle.hp_lattice.specs.declared.dist.Dist.{Dist};
ghost use Rattle.hp_lattice.specs.declared.dist.Dist.TheVariants.{Var};
ghost use Rattle.hp_program.specs.Programs.{operations};
ghost use Rattle.hp_air.specs.Frames.{balanced_copies};
ghost use Rattle.hp_air.specs.Nodes.{program_of};
ghost use Rattle.hp_air.specs.Kept.{size_of, names_of};
ghost use Rattle.hp_air.specs.Placed.{Placed, dist_at, operation_bounds};
ghost use Rattle.hp_air.specs.Solutions.{AreMet};
ghost use Rattle.hp_constrain.specs.Listed.{constraints_of, Adds};

use crate::frames::add_frames;
use crate::rows::add_row;
use hp_air::air::Air;
use hp_air::constraint::Constraint;
use hp_air::node::Node;
use hp_word::place::NoMemory;
use std::alloc::Global;

/// The constraints of the operations of these nodes.
#[cycle(nodes)]
fn add_nodes(list: &mut Vec<Constraint>, nodes: &[Node]) -> Result<(), NoMemory>
    ensures { OnOk result (Adds (operation_bounds (program_of nodes.now)) list.old.items list.new.items) }
{
    for node in nodes {
        add_node(list, node)?;
    }
    Ok(())
}

/// The constraints of the operations of a node.
#[cycle(nodes)]
fn add_node(list: &mut Vec<Constraint>, node: &Node) -> Result<(), NoMemory>
    ensures { OnOk result (Adds (operation_bounds (program_of (node.now ∷ []))) list.old.items list.new.items) }
{
    match node {
        Node::Do(op) => add_row(list, &op.what),
        Node::If(_, first, second) => {
            add_nodes(list, first.as_slice())?;
            add_nodes(list, second.as_slice())
        }
        Node::While(test, _, turn) => {
            add_nodes(list, test.as_slice())?;
            add_nodes(list, turn.as_slice())
        }
    }
}

/// The constraints of a program of the array IR: each column of a frame after the first is equal to the first, and each
/// operation asks of its arrays what its row of the table says; an equality is two constraints. Distributions meet these
/// exactly where they meet the table, each slot having one: `placed` and `meets`.
pub fn constraints(alloc: Global, air: &Air) -> Result<Vec<Constraint>, NoMemory>
    ensures exact { IfOk result (λ list. list.items ≡ constraints_of air.now.slots (program_of air.now.body)) }
    ensures placed { IfOk result (λ list. (dists : List Dist) → Placed air.now.slots (program_of air.now.body) dists → AreMet (dist_at dists) list.items) }
    ensures meets { IfOk result (λ list. (dists : List Dist) → length air.now.slots ≤ length dists → AllByRecursion (λ k. dist_at dists k ≢ Var) (balanced_copies air.now.slots) → AreMet (dist_at dists) list.items → Placed air.now.slots (program_of air.now.body) dists) }
    ensures within { IfOk result (λ list. AllByRecursion (λ c. (c.low < length air.now.slots) × (c.high < length air.now.slots)) list.items) }
    ensures few { IfOk result (λ list. length list.items ≤ 2 * names_of air.now.slots air.now.words (program_of air.now.body) + 4 * size_of (program_of air.now.body)) }
{
    let mut list = Vec::new(alloc);
    add_frames(alloc, &mut list, air.slots.as_slice())?;
    add_nodes(&mut list, air.body.as_slice())?;
    Ok(list)
}
