// The law of greatest solutions.

ghost use Rattle.std.specs.Prelude.{◌≡◌, ◌<◌, ℕ, List};
ghost use Rattle.hp_lattice.specs.declared.dist.Dist.{Dist};
ghost use Rattle.hp_air.specs.declared.constraint.Constraint.{Constraint};
ghost use Rattle.hp_air.specs.Solutions.{IsGreatest};

/// There is no more than one greatest solution, as the clause of a function that does nothing; `infer` finds it.
pub fn solution_laws()
    ensures { (unknowns : ℕ) (constraints : List Constraint) (d e : ℕ → Dist) → IsGreatest unknowns constraints d → IsGreatest unknowns constraints e → (u : ℕ) → u < unknowns → d u ≡ e u }
{}
