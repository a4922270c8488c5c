// The greatest solution of constraints, by a list of those that may not hold: each turn takes the first out and evaluates
// it; where its low unknown falls, those that look at it are linked again. An unknown falls at most twice, so that each
// constraint is evaluated at most three times.

ghost use Rattle.std.specs.List.{range_with_len};
ghost use Rattle.std.specs.Prelude.{◌≡◌, ◌+◌, ◌*◌, ◌<◌, ◌≤◌, ◌^◌, ◌==◌, ◌&&◌, ◌||◌, ℕ, [], not, true, length, replicate, IfOk};
ghost use Rattle.hp_lattice.specs.declared.dist.Dist.TheVariants.{Block};
ghost use Rattle.hp_lattice.specs.Lattice.{met};
ghost use Rattle.hp_links.specs.Boards.{board, is_in};
ghost use Rattle.hp_air.specs.Placed.{dist_at};
ghost use Rattle.hp_air.specs.Solutions.{IsGreatest};
ghost use Rattle.hp_infer.specs.Progress.{IsTurn, IsWork, inference, is_whole, most, steps_left};
ghost use Rattle.hp_infer.specs.Systems.{AreWithin, names};
ghost use Rattle.hp_infer.specs.declared.system.Side.TheVariants.{Low, High};

use crate::steps::Steps;
use crate::system::{Side, System};
use hp_air::constraint::{Constraint, Relation};
use hp_lattice::dist::{Dist, Dists, below, meet, up};
use hp_links::board::Board;
use hp_word::place::NoMemory;
use hp_word::sequence::Sequence;
use std::alloc::Global;
use std::marker::Model;
use std::sync::ledger::Ledger;

/// An inference: constraints on the unknowns below a count, and the distributions that were found for these so far.
#[derive(Debug, Drop)]
pub struct Work {
    system: System,
    dists: Sequence<Dist>,
    board: Board,
}

impl Model for Work {
    ghost use Rattle.hp_infer.specs.Progress.{Inference, IsWork, inference};

    ghost Value = { Inference };

    ghost view = { λ w. inference w.system.constraints w.dists };

    ghost invariant = { λ w. IsWork w.system w.dists w.board };
}

/// A board of which all nodes are linked, in order.
fn all_linked(alloc: Global, nodes: u32) -> Result<Board, NoMemory>
    ensures { IfOk result (λ b. b ≡ board nodes (range_with_len 0 nodes)) }
{
    let mut board = Board::new(alloc, nodes)?;
    for node in 0..nodes {
        board.link(node);
    }
    Ok(board)
}

impl Work {
    /// Nothing is known yet, so that each unknown lies in blocks. Makes all that `infer` needs.
    pub fn new(alloc: Global, constraints: Vec<Constraint>, unknowns: u32) -> Result<Work, NoMemory>
        requires within { AreWithin unknowns constraints.items }
        requires few { length constraints.items < 2 ^ 32 }
        ensures { IfOk result (λ w. w ≡ inference constraints.items (replicate unknowns Block)) }
    {
        let board = all_linked(alloc, constraints.len() as u32)?;
        let dists = Sequence::from_vec(vec![in alloc; Dist::Block; unknowns as usize]?);
        let system = System::new(alloc, constraints, unknowns)?;
        Ok(Work {
            system,
            dists,
            board,
        })
    }

    /// The distribution found for an unknown.
    pub fn dist(&self, id: u32) -> Dist
        requires { id < length self.now.dists }
        ensures { result ≡ dist_at self.now.dists id }
    {
        self.dists.as_slice()[id as usize]
    }

    /// The distributions found for all unknowns.
    pub fn into_dists(self) -> Dists
        ensures { result.list ≡ self.dists }
    {
        let Work {
            system: _,
            dists,
            board: _,
        } = self;
        Dists { list: dists }
    }
}

/// The greatest distribution that a relation leaves the low unknown.
fn most_of(relation: Relation, high: Dist) -> Dist
    ensures { result ≡ most relation high }
{
    match relation {
        Relation::Same => high,
        Relation::Up => up(high),
        Relation::AtMost(limit) => limit,
    }
}

/// What a constraint leaves its low unknown. This is an evaluation, and one step.
fn evaluate<L: Ledger>(constraint: Constraint, dists: &[Dist], steps: &mut Steps<L>) -> Dist
    requires low { constraint.low < length dists.now }
    requires high { constraint.high < length dists.now }
    ensures dist { result ≡ met (dist_at dists.now constraint.low) (most constraint.relation (dist_at dists.now constraint.high)) }
    ensures steps { steps.new ≡ steps.old + 1 }
{
    steps.take();
    let high = dists[constraint.high as usize];
    meet(
        dists[constraint.low as usize],
        most_of(constraint.relation, high),
    )
}

/// Links a constraint at the end, if it is not linked.
fn link_if_free(board: &mut Board, at: u32)
    requires { at < board.old.nodes }
    ensures nodes { board.new.nodes ≡ board.old.nodes }
    ensures linked { (k : ℕ) → is_in k board.new.list ≡ (k == at || is_in k board.old.list) }
{
    if board.is_linked(at) {
        return;
    }
    board.link(at);
}

/// Takes a constraint out, if it is linked.
fn unlink_if_linked(board: &mut Board, at: u32)
    requires { at < board.old.nodes }
    ensures nodes { board.new.nodes ≡ board.old.nodes }
    ensures linked { (k : ℕ) → is_in k board.new.list ≡ (not (k == at) && is_in k board.old.list) }
{
    if !board.is_linked(at) {
        return;
    }
    board.unlink(at);
}

/// Links each constraint whose high unknown this is.
fn link_readers(system: &System, board: &mut Board, unknown: u32)
    requires nodes { board.old.nodes ≡ length system.now.constraints }
    requires within { unknown < system.now.unknowns }
    ensures nodes { board.new.nodes ≡ board.old.nodes }
    ensures linked { (k : ℕ) → is_in k board.new.list ≡ (names High unknown system.now.constraints k || is_in k board.old.list) }
{
    let mut next = system.first(Side::High, unknown);
    while let Some(at) = next {
        link_if_free(board, at);
        next = system.next(Side::High, at);
    }
}

/// Takes each constraint out whose low unknown this is.
fn unlink_met(system: &System, board: &mut Board, unknown: u32)
    requires nodes { board.old.nodes ≡ length system.now.constraints }
    requires within { unknown < system.now.unknowns }
    ensures nodes { board.new.nodes ≡ board.old.nodes }
    ensures linked { (k : ℕ) → is_in k board.new.list ≡ (not (names Low unknown system.now.constraints k) && is_in k board.old.list) }
{
    let mut next = system.first(Side::Low, unknown);
    while let Some(at) = next {
        unlink_if_linked(board, at);
        next = system.next(Side::Low, at);
    }
}

/// Takes each constraint out whose low unknown this is, if it lies whole: they all hold then.
fn unlink_if_whole(system: &System, board: &mut Board, unknown: u32, dist: Dist)
    requires nodes { board.old.nodes ≡ length system.now.constraints }
    requires within { unknown < system.now.unknowns }
    ensures nodes { board.new.nodes ≡ board.old.nodes }
    ensures linked { (k : ℕ) → is_in k board.new.list ≡ (not (is_whole dist && names Low unknown system.now.constraints k) && is_in k board.old.list) }
{
    match dist {
        Dist::Rep => unlink_met(system, board, unknown),
        Dist::Var | Dist::Block => {}
    }
}

/// A turn: takes a linked constraint out and evaluates it. Where its low unknown falls, each constraint whose high that is
/// is linked, and where it now lies whole, each whose low it is is taken out.
fn turn<L: Ledger>(
    system: &System,
    dists: &mut Sequence<Dist>,
    board: &mut Board,
    at: u32,
    steps: &mut Steps<L>,
)
    requires work { IsWork system.now dists.old board.old }
    requires linked { is_in at board.old.list ≡ true }
    requires within { at < board.old.nodes }
    ensures turn { IsTurn system.now dists.old dists.new board.old board.new }
    ensures steps { steps.new ≡ steps.old + 1 }
{
    board.unlink(at);
    let constraint = system.constraint(at);
    let dist = evaluate(constraint, dists.as_slice(), steps);
    if below(dists.as_slice()[constraint.low as usize], dist) {
        return;
    }
    dists.set(constraint.low as usize, dist);
    link_readers(system, board, constraint.low);
    unlink_if_whole(system, board, constraint.low, dist);
}

/// Turns until no constraint is linked.
fn settle<L: Ledger>(
    system: &System,
    dists: &mut Sequence<Dist>,
    board: &mut Board,
    steps: &mut Steps<L>,
)
    requires { IsWork system.now dists.old board.old }
    ensures work { IsWork system.now dists.new board.new }
    ensures none { board.new.list ≡ [] }
    ensures steps { steps.new + steps_left system.now.constraints dists.new board.new.list ≤ steps.old + steps_left system.now.constraints dists.old board.old.list }
{
    while let Some(at) = board.first() {
        turn(system, dists, board, at, steps);
    }
}

/// Finds the greatest solution: the distributions that meet all constraints, such that whatever meets them lies below. One
/// step is one evaluation of a constraint, and there are at most three for each. Takes no memory.
pub fn infer<L: Ledger>(work: &mut Work, steps: &mut Steps<L>)
    ensures greatest { IsGreatest (length work.new.dists) work.new.constraints (dist_at work.new.dists) }
    ensures constraints { work.new.constraints ≡ work.old.constraints }
    ensures unknowns { length work.new.dists ≡ length work.old.dists }
    ensures steps { steps.new ≤ steps.old + 3 * length work.old.constraints }
{
    settle(&work.system, &mut work.dists, &mut work.board, steps)
}
