// Loops from the array IR: maps, reductions and stencils become loops, and all else stays.

ghost use Rattle.std.specs.Prelude.{◌≡◌, ◌≤◌, ℕ, List, [], ◌∷◌, IfOk, IsTrue, OnOk};
ghost use Rattle.hp_lattice.specs.declared.dist.Dist.{Dist};
ghost use Rattle.hp_word.specs.declared.order.Order.{Order};
ghost use Rattle.hp_word.specs.declared.table.Table.{Table};
ghost use Rattle.hp_program.specs.Programs.{EndsAs, stop, plain, choose, loop, joined, replaced};
ghost use Rattle.hp_script.specs.declared.typed.Typed.{Typed};
ghost use Rattle.hp_air.specs.Carried.{Carried};
ghost use Rattle.hp_air.specs.Meaning.{SameMeaning, Serves, ending, mean, work_of};
ghost use Rattle.hp_air.specs.Nodes.{program_of};
ghost use Rattle.hp_air.specs.Placed.{Placed};
ghost use Rattle.hp_parfor.specs.Built.{map_loop, reduce_loop, stencil_loop, dealt_copy, built, IsSameAtTrap};
ghost use Rattle.hp_parfor.specs.CarriedParts.{CarriedParts};
ghost use Rattle.hp_parfor.specs.KeptParts.{is_whole};
ghost use Rattle.hp_parfor.specs.LoopMeaning.{PartsServed, parts_mean, parts_work};
ghost use Rattle.hp_parfor.specs.Parts.{Does, Loops, program_of as steps_of};
ghost use Rattle.hp_parfor.specs.PlacedParts.{PlacedParts};

use crate::copied::{copied_elem, copied_slots, copied_what};
use crate::parfor::{Folding, Halo, Out, Parfor, Step};
use crate::parfors::Parfors;
use hp_air::air::Air;
use hp_air::node::Node;
use hp_air::what::{Op, What};
use hp_word::elem::Elem;
use hp_word::fold::FoldKind;
use hp_word::place::{NoMemory, Place};
use hp_word::sequence::Sequence;
use sqlite_items::Items;
use std::alloc::Global;

/// A list of one item.
fn only<T: Drop>(alloc: Global, item: T) -> Result<Sequence<T>, NoMemory>
    ensures { IfOk result (λ list. list ≡ item ∷ []) }
{
    let mut list = Sequence::new(alloc);
    list.push(item)?;
    Ok(list)
}

/// The loop of a map, over the places of its first in.
fn map_loop(
    alloc: Global,
    at: Place,
    out: u32,
    ins: &Sequence<u32>,
    elem: &Elem,
) -> Result<Parfor, NoMemory>
    ensures { IfOk result (λ p. p ≡ map_loop at out ins.now elem.now) }
{
    let leader = match ins.as_slice() {
        [first, ..] => *first,
        [] => 0,
    };
    Ok(Parfor {
        leader,
        inputs: copied_slots(alloc, ins)?,
        halos: Sequence::new(alloc),
        lets: only(alloc, copied_elem(alloc, elem)?)?,
        outs: only(
            alloc,
            Out {
                array: out,
                value: 0,
            },
        )?,
        folds: Sequence::new(alloc),
        at,
    })
}

/// The loop of a reduction, over the places of its array.
fn reduce_loop(
    alloc: Global,
    at: Place,
    to: u32,
    kind: FoldKind,
    array: u32,
    elem: &Elem,
) -> Result<Parfor, NoMemory>
    ensures { IfOk result (λ p. p ≡ reduce_loop at to kind array elem.now) }
{
    let fold = Folding {
        word: to,
        kind,
        value: 0,
    };
    Ok(Parfor {
        leader: array,
        inputs: only(alloc, array)?,
        halos: Sequence::new(alloc),
        lets: only(alloc, copied_elem(alloc, elem)?)?,
        outs: Sequence::new(alloc),
        folds: only(alloc, fold)?,
        at,
    })
}

/// The loop of a stencil, over and round the places of its balanced copy.
fn stencil_loop(
    alloc: Global,
    at: Place,
    out: u32,
    balanced: u32,
    reach: u32,
    elem: &Elem,
) -> Result<Parfor, NoMemory>
    ensures { IfOk result (λ p. p ≡ stencil_loop at out balanced reach elem.now) }
{
    let halo = Halo {
        array: balanced,
        reach,
    };
    Ok(Parfor {
        leader: balanced,
        inputs: Sequence::new(alloc),
        halos: only(alloc, halo)?,
        lets: only(alloc, copied_elem(alloc, elem)?)?,
        outs: only(
            alloc,
            Out {
                array: out,
                value: 0,
            },
        )?,
        folds: Sequence::new(alloc),
        at,
    })
}

/// The copy of an array to its balanced copy.
fn dealt(alloc: Global, at: Place, array: u32, balanced: u32) -> Result<Op, NoMemory>
    ensures { IfOk result (λ op. op ≡ dealt_copy at array balanced) }
{
    let outs = only(alloc, balanced)?;
    let ins = only(alloc, array)?;
    Ok(Op {
        at,
        what: What::Copy { outs, ins },
    })
}

/// Adds a loop.
#[tactic(auto, using(crate::proofs::StepLemmas::loop_pushed))]
fn push_loop(steps: &mut Items<Step>, parfor: Parfor) -> Result<(), NoMemory>
    ensures { OnOk result (steps_of steps.new ≡ joined (steps_of steps.old) (plain (Loops parfor) stop)) }
{
    steps.push(Step::Loop(parfor))?;
    Ok(())
}

/// Adds an operation.
#[tactic(auto, using(crate::proofs::StepLemmas::plain_pushed))]
fn push_plain(steps: &mut Items<Step>, op: Op) -> Result<(), NoMemory>
    ensures { OnOk result (steps_of steps.new ≡ joined (steps_of steps.old) (plain (Does op) stop)) }
{
    steps.push(Step::Plain(op))?;
    Ok(())
}

/// Adds the copy and the loop of a stencil.
fn push_stencil(steps: &mut Items<Step>, copy: Op, parfor: Parfor) -> Result<(), NoMemory>
    ensures { OnOk result (steps_of steps.new ≡ joined (steps_of steps.old) (plain (Does copy) (plain (Loops parfor) stop))) }
{
    push_plain(steps, copy)?;
    push_loop(steps, parfor)
}

/// Adds a copy of an operation that is no loop.
fn push_copy(alloc: Global, steps: &mut Items<Step>, op: &Op) -> Result<(), NoMemory>
    requires whole { IsTrue (is_whole op.now.what) }
    ensures { OnOk result (steps_of steps.new ≡ joined (steps_of steps.old) (plain (Does op.now) stop)) }
{
    let what = copied_what(alloc, &op.what)?;
    push_plain(steps, Op { at: op.at, what })
}

/// Adds the steps that stand for an operation.
#[tactic(auto, unfolding(crate::specs::Built::built_at))]
fn add_operation(alloc: Global, steps: &mut Items<Step>, op: &Op) -> Result<(), NoMemory>
    ensures { OnOk result (steps_of steps.new ≡ joined (steps_of steps.old) (built op.now)) }
{
    match &op.what {
        What::Map { out, ins, elem } => {
            let parfor = map_loop(alloc, op.at, *out, ins, elem)?;
            push_loop(steps, parfor)
        }
        What::Reduce {
            to,
            kind,
            array,
            elem,
        } => {
            let parfor = reduce_loop(alloc, op.at, *to, *kind, *array, elem)?;
            push_loop(steps, parfor)
        }
        What::Stencil {
            out,
            array,
            balanced,
            reach,
            elem,
        } => {
            let copy = dealt(alloc, op.at, *array, *balanced)?;
            let parfor = stencil_loop(alloc, op.at, *out, *balanced, *reach, elem)?;
            push_stencil(steps, copy, parfor)
        }
        _ => push_copy(alloc, steps, op),
    }
}

/// Adds a branch.
#[tactic(auto, using(crate::proofs::StepLemmas::choice_pushed))]
fn push_choice(
    steps: &mut Items<Step>,
    word: u32,
    first: Items<Step>,
    second: Items<Step>,
) -> Result<(), NoMemory>
    ensures { OnOk result (steps_of steps.new ≡ joined (steps_of steps.old) (choose word (steps_of first) (steps_of second) stop)) }
{
    steps.push(Step::If(word, first, second))?;
    Ok(())
}

/// Adds a loop of steps.
#[tactic(auto, using(crate::proofs::StepLemmas::turns_pushed))]
fn push_turns(
    steps: &mut Items<Step>,
    test: Items<Step>,
    word: u32,
    body: Items<Step>,
) -> Result<(), NoMemory>
    ensures { OnOk result (steps_of steps.new ≡ joined (steps_of steps.old) (loop (steps_of test) word (steps_of body) stop)) }
{
    steps.push(Step::While(test, word, body))?;
    Ok(())
}

/// The steps that stand for nodes.
#[cycle(nodes)]
fn build_nodes(alloc: Global, nodes: &[Node]) -> Result<Items<Step>, NoMemory>
    ensures { IfOk result (λ steps. steps_of steps ≡ replaced built (program_of nodes.now)) }
{
    let mut steps = Items::new(alloc);
    for node in nodes {
        add_node(alloc, node, &mut steps)?;
    }
    Ok(steps)
}

/// Adds the steps that stand for a node, which comes before the steps since the recursion goes down the node.
#[cycle(nodes)]
fn add_node(alloc: Global, node: &Node, steps: &mut Items<Step>) -> Result<(), NoMemory>
    ensures { OnOk result (steps_of steps.new ≡ joined (steps_of steps.old) (replaced built (program_of (node.now ∷ [])))) }
{
    match node {
        Node::Do(op) => add_operation(alloc, steps, op),
        Node::If(word, first, second) => {
            let first = build_nodes(alloc, first.as_slice())?;
            let second = build_nodes(alloc, second.as_slice())?;
            push_choice(steps, *word, first, second)
        }
        Node::While(test, word, body) => {
            let test = build_nodes(alloc, test.as_slice())?;
            let body = build_nodes(alloc, body.as_slice())?;
            push_turns(steps, test, *word, body)
        }
    }
}

/// The program with loops of a program of the array IR, whose slots have these distributions: maps, reductions and
/// stencils become loops, a stencil a copy of its array to its balanced copy and then a loop over and round the places of
/// that, and all else stays. It means the same, over all tables and under all orders: it ends in the same way, with the
/// same output, where it is done in the same environment, and with no more work, whatever the distributions are. Tables
/// that serve the one serve the other, distributions by which the one can run are such of the other, and a script that
/// the one carries is carried by the other.
pub fn build(alloc: Global, air: &Air) -> Result<Parfors, NoMemory>
    ensures slots { IfOk result (λ made. made.slots ≡ air.now.slots) }
    ensures words { IfOk result (λ made. made.words ≡ air.now.words) }
    ensures exact { IfOk result (λ made. steps_of made.body ≡ replaced built (program_of air.now.body)) }
    ensures means { IfOk result (λ made. SameMeaning (Serves (program_of air.now.body)) (λ tables orders fuel. ending (mean air.now.slots (program_of air.now.body) tables orders fuel)) (λ tables orders fuel. ending (parts_mean made.slots [] (steps_of made.body) tables orders fuel))) }
    ensures ends { IfOk result (λ made. (list : List Dist) (tables : List Table) (orders : List Order) (fuel : ℕ) → EndsAs (λ e f. e ≡ f) IsSameAtTrap (mean air.now.slots (program_of air.now.body) tables orders fuel) (parts_mean made.slots list (steps_of made.body) tables orders fuel)) }
    ensures serves { IfOk result (λ made. (tables : List Table) → Serves (program_of air.now.body) tables → PartsServed (steps_of made.body) tables) }
    ensures work { IfOk result (λ made. (tables : List Table) (orders : List Order) (fuel : ℕ) (dists : List Dist) → parts_work made.slots (steps_of made.body) tables orders fuel dists ≤ work_of (mean air.now.slots (program_of air.now.body) tables orders fuel)) }
    ensures placed { IfOk result (λ made. (list : List Dist) → Placed air.now.slots (program_of air.now.body) list → PlacedParts made.slots (steps_of made.body) list) }
    ensures carried { IfOk result (λ made. (typed : Typed) → Carried typed air.now.slots (program_of air.now.body) → CarriedParts typed made.slots (steps_of made.body)) }
{
    let body = build_nodes(alloc, air.body.as_slice())?;
    Ok(Parfors {
        slots: Sequence::from_slice(alloc, air.slots.as_slice())?,
        words: air.words,
        body,
    })
}
