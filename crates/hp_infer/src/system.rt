// Constraints, linked by index into one chain for each unknown that is their low, and one for each that is their high.

ghost use Rattle.std.specs.Prelude.{◌≡◌, ◌+◌, ◌<◌, ◌^◌, ℕ, length, IfOk};
ghost use Rattle.hp_infer.specs.Systems.{AreWithin, IsChained, constraint_at, end_of, next_naming, problem};

use hp_air::constraint::Constraint;
use hp_word::place::NoMemory;
use std::alloc::Global;
use std::marker::Model;

/// One of the two unknowns that a constraint names.
#[derive(Clone, Copy, Debug, PartialEq, Eq)]
pub enum Side {
    Low,
    High,
}

/// The unknown on a side of a constraint.
fn end_of(side: Side, constraint: &Constraint) -> u32
    ensures { result ≡ end_of side constraint.now }
{
    match side {
        Side::Low => constraint.low,
        Side::High => constraint.high,
    }
}

/// For each unknown the first constraint that names it on a side, and for each constraint the next that names the same.
#[derive(Debug, Drop)]
pub struct Chains {
    first: Vec<Option<u32>>,
    next: Vec<Option<u32>>,
}

impl Chains {
    /// The chains of constraints by their unknowns on a side.
    fn new(
        alloc: Global,
        side: Side,
        constraints: &[Constraint],
        unknowns: u32,
    ) -> Result<Chains, NoMemory>
        requires within { AreWithin unknowns constraints.now }
        requires few { length constraints.now < 2 ^ 32 }
        ensures { IfOk result (λ chains. IsChained side unknowns constraints.now chains) }
    {
        let mut first = vec![in alloc; None; unknowns as usize]?;
        let mut next = vec![in alloc; None; constraints.len()]?;
        let mut from = constraints.len();
        while from > 0 {
            from -= 1;
            let unknown = end_of(side, &constraints[from]) as usize;
            next[from] = first[unknown];
            first[unknown] = Some(from as u32);
        }
        Ok(Chains { first, next })
    }
}

/// A list of constraints on the unknowns below a count, with those of each unknown at hand.
#[derive(Debug, Drop)]
pub struct System {
    constraints: Vec<Constraint>,
    by_low: Chains,
    by_high: Chains,
}

impl Model for System {
    ghost use Rattle.std.specs.Prelude.{length};
    ghost use Rattle.hp_infer.specs.Systems.{IsSystem, Problem, problem};

    ghost Value = { Problem };

    ghost view = { λ s. problem s.constraints.items (length s.by_low.first.items) };

    ghost invariant = { λ s. IsSystem (problem s.constraints.items (length s.by_low.first.items)) s.by_low s.by_high };
}

impl System {
    /// These constraints; takes no memory later.
    pub fn new(
        alloc: Global,
        constraints: Vec<Constraint>,
        unknowns: u32,
    ) -> Result<System, NoMemory>
        requires within { AreWithin unknowns constraints.items }
        requires few { length constraints.items < 2 ^ 32 }
        ensures { IfOk result (λ s. s ≡ problem constraints.items unknowns) }
    {
        let by_low = Chains::new(alloc, Side::Low, constraints.as_slice(), unknowns)?;
        let by_high = Chains::new(alloc, Side::High, constraints.as_slice(), unknowns)?;
        Ok(System {
            constraints,
            by_low,
            by_high,
        })
    }

    /// The constraint at a place.
    pub fn constraint(&self, at: u32) -> Constraint
        requires { at < length self.now.constraints }
        ensures constraint { result ≡ constraint_at self.now.constraints at }
        ensures low { result.low < self.now.unknowns }
        ensures high { result.high < self.now.unknowns }
    {
        self.constraints[at as usize]
    }

    /// The chains of a side.
    fn chains(&self, side: Side) -> &Chains
        ensures chains { IsChained side self.now.unknowns self.now.constraints result.now }
        ensures within { AreWithin self.now.unknowns self.now.constraints }
    {
        match side {
            Side::Low => &self.by_low,
            Side::High => &self.by_high,
        }
    }

    /// The first constraint that names an unknown on a side.
    pub fn first(&self, side: Side, unknown: u32) -> Option<u32>
        requires { unknown < self.now.unknowns }
        ensures { result ≡ next_naming side unknown 0 self.now.constraints }
    {
        self.chains(side).first[unknown as usize]
    }

    /// The constraint behind one that names the same unknown on a side.
    pub fn next(&self, side: Side, at: u32) -> Option<u32>
        requires { at < length self.now.constraints }
        ensures { result ≡ next_naming side (end_of side (constraint_at self.now.constraints at)) (at + 1) self.now.constraints }
    {
        self.chains(side).next[at as usize]
    }
}
