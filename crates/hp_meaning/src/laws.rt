// Laws of the meaning of scripts: that a script that fits has an end, what fuel and orders can change, and how many joins
// and aggregates a run executes.

ghost use Rattle.hp_meaning.specs.Fitting.{EndsTyped, Serves};
ghost use Rattle.hp_meaning.specs.FuelLaws.{EndsAfter, IsOver, end_with_more};
ghost use Rattle.hp_meaning.specs.OrderLaws.{EndsSame, EndsWithFew, EvaluatesFew, NameSameUpTo, RunsFew, joins_none};
ghost use Rattle.hp_meaning.specs.declared.line.Line.{Line};
ghost use Rattle.hp_meaning.specs.Forms.{built};
ghost use Rattle.hp_meaning.specs.LinesLaw.{EndsAlike};
ghost use Rattle.hp_meaning.specs.Meaning.{eval as lines_eval};
ghost use Rattle.hp_word.specs.declared.order.Orders.{Orders};
ghost use Rattle.hp_word.specs.declared.table.Tables.{Tables};
ghost use Rattle.hp_meaning.specs.Run.{End, State, decided, eval, in_turn, run};
ghost use Rattle.hp_word.specs.RowRules.{AgreeUpTo};
ghost use Rattle.hp_word.specs.Runs.{IsFrontOf, Lasts, Writes, turns, with_more};
ghost use Rattle.hp_meaning.specs.Scopes.{Scope};
ghost use Rattle.hp_meaning.specs.ValueOf.{Meaning, Supply, value};
ghost use Rattle.hp_meaning.specs.declared.seen.Seen.{Seen};
ghost use Rattle.hp_meaning.specs.declared.seq.SeqStatus.TheVariants as status;
ghost use Rattle.hp_script.specs.Checked.{first_break, files_of};
ghost use Rattle.hp_script.specs.Mirror.{Block, Tree, block_of};
ghost use Rattle.hp_script.specs.declared.tree.Script.{Script};
ghost use Rattle.hp_word.specs.declared.order.Order.{Order};
ghost use Rattle.hp_word.specs.declared.table.Table.{Table};
ghost use Rattle.std.specs.Prelude.{◌≡◌, ℕ, ◌+◌, ◌-◌, ◌<◌, ◌≤◌, List, [], Some, None, IsSome, Ok, true};

/// The laws of fuel, as the clauses of a function that does nothing. Where a script is over, it is over in the same way
/// under more fuel, but for the fuel left; and where it is wrong, it is wrong under more. The output under less fuel is
/// a front of the output under more. No more turns are begun than there is fuel for, and just as many where a script is
/// out of it; a script that is over has begun exactly as many as fuel was taken, so that it ends in the same way under just
/// that fuel, and is out of fuel under less. The same of any statements from any state on, and what they write stays. And the number that
/// turns of a loop are counted by does not matter where it is greater than the fuel.
pub fn fuel_laws()
    ensures more_fuel { (body : Block) (tables : List Table) (orders : List Order) (fuel more : ℕ) (e : End) → eval body tables orders fuel ≡ Some e → IsOver e.status → eval body tables orders (fuel + more) ≡ Some (end_with_more more e) }
    ensures still_wrong { (body : Block) (tables : List Table) (orders : List Order) (fuel more : ℕ) → eval body tables orders fuel ≡ None → eval body tables orders (fuel + more) ≡ None }
    ensures less_fuel { (body : Block) (tables : List Table) (orders : List Order) (fuel more : ℕ) (e later : End) → eval body tables orders fuel ≡ Some e → eval body tables orders (fuel + more) ≡ Some later → IsFrontOf e.at.out later.at.out }
    ensures fuel_left { (body : Block) (tables : List Table) (orders : List Order) (fuel : ℕ) (e : End) → eval body tables orders fuel ≡ Some e → e.at.fuel ≤ fuel }
    ensures none_left { (body : Block) (tables : List Table) (orders : List Order) (fuel : ℕ) (e : End) → eval body tables orders fuel ≡ Some e → e.status ≡ status.Fuel → e.at.fuel ≡ 0 }
    ensures turns_begun { (body : Block) (tables : List Table) (orders : List Order) (fuel other : ℕ) (e : End) → eval body tables orders fuel ≡ Some e → IsOver e.status → EndsAfter (fuel - e.at.fuel) e other (eval body tables orders other) }
    ensures lasts { (g : Supply) (b : Block) (more : ℕ) (s : State) → Lasts more (run g b s) (run g b (with_more more s)) }
    ensures writes { (g : Supply) (b : Block) (s : State) → Writes s.out (run g b s) }
    ensures same_turns { (g : Supply) (test : Meaning) (b : Block) (j k : ℕ) (s : State) → s.fuel < j → s.fuel < k → turns j (decided test) (in_turn (run g b)) s ≡ turns k (decided test) (in_turn (run g b)) s }
{}

/// The laws of scripts that fit, as the clauses of a function that does nothing: over tables that go with the files that
/// it reads, a script in which no rule breaks has an end; and where it is done, each variable that is surely set has a
/// value, and each value is of its variable's type.
pub fn fitting_laws()
    ensures has_end { (script : Script) (tables : List Table) (orders : List Order) (fuel : ℕ) → first_break (block_of script.body) ≡ None → Serves tables (files_of (block_of script.body)) → IsSome (eval (block_of script.body) tables orders fuel) }
    ensures typed { (script : Script) (tables : List Table) (orders : List Order) (fuel : ℕ) (e : End) → first_break (block_of script.body) ≡ None → Serves tables (files_of (block_of script.body)) → eval (block_of script.body) tables orders fuel ≡ Some e → EndsTyped (block_of script.body) e }
{}

/// The laws of orders, as the clauses of a function that does nothing: an expression, statements and a whole run execute
/// at most one join or aggregate for each tick; a run that executes no more of them than those for which two lists of
/// orders agree ends in the same way by both, and lists that give the same orders agree; and a script without joins and
/// aggregates means the same under all orders.
pub fn order_laws()
    ensures few_evaluated { (g : Supply) (x : Tree) (s : Scope) (n : Seen) → EvaluatesFew n (value g x s n) }
    ensures few_run { (g : Supply) (b : Block) (s : State) → RunsFew s.seen (run g b s) }
    ensures few_executed { (body : Block) (tables : List Table) (orders : List Order) (fuel : ℕ) → EndsWithFew (eval body tables orders fuel) }
    ensures by_number { (body : Block) (tables : List Table) (a b : List Order) (fuel last : ℕ) → AgreeUpTo last a b → EndsSame last (eval body tables a fuel) (eval body tables b fuel) }
    ensures named_agree { (a b : List Order) (last : ℕ) → NameSameUpTo last a b → AgreeUpTo last a b }
    ensures no_order { (body : Block) (tables : List Table) (a b : List Order) (fuel : ℕ) → joins_none body ≡ true → eval body tables a fuel ≡ eval body tables b fuel }
{}

/// The law of the statements that are built for ranks, as the clause of a function that does nothing: what `Meaning`
/// says of them is what the script means.
pub fn lines_law()
    ensures { (body : Block) (lines : List Line) (tables : Tables) (orders : Orders) (fuel : ℕ) → built [] body ≡ Ok lines → EndsAlike (lines_eval lines tables orders fuel) (eval body tables.list orders.list fuel) }
{}
