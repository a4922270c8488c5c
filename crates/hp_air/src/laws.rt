// Laws of programs of the array IR, for all tables, orders and numbers of loop turns.

ghost use Rattle.std.specs.List.{AllByRecursion};
ghost use Rattle.std.specs.Prelude.{◌≡◌, ◌≢◌, ◌≤◌, ℕ, ◌+◌, List, IsTrue, length};
ghost use Rattle.hp_lattice.specs.declared.dist.Dist.{Dist};
ghost use Rattle.hp_lattice.specs.declared.dist.Dist.TheVariants.{Var};
ghost use Rattle.hp_word.specs.RowRules.{AgreeUpTo};
ghost use Rattle.hp_word.specs.Runs.{Lasts, State, Writes, with_more};
ghost use Rattle.hp_word.specs.declared.order.Order.{Order};
ghost use Rattle.hp_word.specs.declared.table.Table.{Table};
ghost use Rattle.hp_program.specs.Programs.{EndsLike, IsLike, Prog, replaced, run, step};
ghost use Rattle.hp_air.specs.declared.slot.Slot.{Slot};
ghost use Rattle.hp_air.specs.declared.what.Op.{Op};
ghost use Rattle.hp_air.specs.declared.what.What.{What};
ghost use Rattle.hp_air.specs.Arrays.{arrays_of};
ghost use Rattle.hp_air.specs.Constraints.{IsSolution, Meets, bounds_of};
ghost use Rattle.hp_air.specs.Frames.{balanced_copies};
ghost use Rattle.hp_air.specs.Kept.{are_kept, are_slots, has_lists};
ghost use Rattle.hp_air.specs.Placed.{Placed, dist_at, program_bounds};
ghost use Rattle.hp_air.specs.Wholes.{Env};
ghost use Rattle.hp_air.specs.Meaning.{Serves, doing, mean};
ghost use Rattle.hp_air.specs.RunLaws.{AreLevel, EndsSame, EndsWith, WorksOn, executions};

/// The laws of runs, as the clauses of a function that does nothing. What is written stays, and work only rises; no run is
/// wrong. What is over under some fuel is over at the same state under more, but for the fuel left, and what is out of
/// fuel has written a front of what is written under more. A run that executes no more joins and aggregates than those for
/// which two lists of orders agree is the same by both. And a program in which each operation is one unit of work runs in
/// the same way with no more work: the work is at least one for each operation executed, and one for each word looked at.
/// Where steps that do the same with no more work stand for each operation, so does the whole program. And of a program
/// that keeps its laws, over tables that serve it, the columns of each frame have one length, however its run ends.
pub fn run_laws()
    ensures writes { (slots : List Slot) (p : Prog Op) (tables : List Table) (orders : List Order) (s : State Env ℕ) → Writes s.out (run (doing slots tables orders) p s) }
    ensures works_on { (slots : List Slot) (p : Prog Op) (tables : List Table) (orders : List Order) (s : State Env ℕ) → WorksOn s.seen (run (doing slots tables orders) p s) }
    ensures lasts { (slots : List Slot) (p : Prog Op) (tables : List Table) (orders : List Order) (more : ℕ) (s : State Env ℕ) → Lasts more (run (doing slots tables orders) p s) (run (doing slots tables orders) p (with_more more s)) }
    ensures more_fuel { (slots : List Slot) (p : Prog Op) (tables : List Table) (orders : List Order) (fuel more : ℕ) → Lasts more (mean slots p tables orders fuel) (mean slots p tables orders (fuel + more)) }
    ensures by_number { (slots : List Slot) (p : Prog Op) (tables : List Table) (a b : List Order) (fuel last : ℕ) → AgreeUpTo last a b → EndsSame last (mean slots p tables a fuel) (mean slots p tables b fuel) }
    ensures one_each { (slots : List Slot) (p : Prog Op) (tables : List Table) (orders : List Order) (fuel : ℕ) → EndsLike (λ e f. e ≡ f) (mean slots p tables orders fuel) (executions slots p tables orders fuel) }
    ensures replaces { (slots : List Slot) (steps : Op → Prog Op) (tables : List Table) (orders : List Order) → ((op : Op) (s t : State Env ℕ) → IsLike (λ e f. e ≡ f) s t → EndsLike (λ e f. e ≡ f) (step (doing slots tables orders) op s) (run (doing slots tables orders) (steps op) t)) → (p : Prog Op) (fuel : ℕ) → EndsLike (λ e f. e ≡ f) (mean slots p tables orders fuel) (mean slots (replaced steps p) tables orders fuel) }
    ensures level { (slots : List Slot) (words : ℕ) (p : Prog Op) (tables : List Table) (orders : List Order) (fuel : ℕ) → IsTrue (are_slots slots) → IsTrue (are_kept slots words p) → Serves p tables → EndsWith (AreLevel slots) (mean slots p tables orders fuel) }
{}

/// The laws of distributions, as the clauses of a function that does nothing: the constraints of an operation hold exactly
/// where its arrays lie as it asks; and a program can run by distributions exactly where the constraints of its frames and
/// operations hold, each slot has a distribution, and no balanced copy lies in uneven pieces.
pub fn constraint_laws()
    ensures solved { (d : ℕ → Dist) (op : What) → Meets d (arrays_of op) → IsSolution d (bounds_of (arrays_of op)) }
    ensures met { (d : ℕ → Dist) (op : What) → IsTrue (has_lists op) → IsSolution d (bounds_of (arrays_of op)) → Meets d (arrays_of op) }
    ensures placed_solved { (slots : List Slot) (p : Prog Op) (dists : List Dist) → Placed slots p dists → IsSolution (dist_at dists) (program_bounds slots p) }
    ensures solved_placed { (slots : List Slot) (words : ℕ) (p : Prog Op) (dists : List Dist) → IsTrue (are_kept slots words p) → length slots ≤ length dists → AllByRecursion (λ k. dist_at dists k ≢ Var) (balanced_copies slots) → IsSolution (dist_at dists) (program_bounds slots p) → Placed slots p dists }
{}
