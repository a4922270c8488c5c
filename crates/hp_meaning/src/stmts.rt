// The statements of a script, one after another.

ghost use Rattle.std.specs.Prelude.{◌≡◌, ◌≢◌, ◌+◌, ◌∷◌, [], IfOk, OnOk, IfErr};
ghost use Rattle.hp_script.specs.Mirror.{tree_of, block_of};
ghost use Rattle.hp_meaning.specs.Halts.{halt_of};
ghost use Rattle.hp_meaning.specs.HeldValues.{held_value, supply_in, Holds};
ghost use Rattle.hp_meaning.specs.Run.{begun, decided, in_turn, run};
ghost use Rattle.hp_word.specs.Runs.{turned, turns};
ghost use Rattle.hp_meaning.specs.Running.{state_in, RunsTo, TestsTo, assign_run, print_run, export_run};
ghost use Rattle.hp_meaning.specs.Scopes.{outside};
ghost use Rattle.hp_meaning.specs.ValueOf.{value};
ghost use Rattle.hp_meaning.specs.declared.stmts.Halt.TheVariants as halts;
ghost use Rattle.hp_meaning.specs.declared.stmts.Halt.TheVariants.{NoMemory};

use crate::exprs::value;
use crate::held::Held;
use crate::numbers::number_assigned;
use crate::output::{export, print};
use crate::scope::{Scope, Supply, copied};
use crate::seen::{Seen, Stop};
use crate::value::{Kind, Value};
use crate::variables::Variables;
use hp_script::tree::{Expr, Stmt};
use hp_word::name::Name;
use hp_word::place::{NoMemory, Trap};
use hp_word::sequence::Sequence;
use hp_word::word::is_true;
use std::alloc::Global;

/// How far a script has come: its variables, what was seen, what was written, and how many loop turns are left.
#[derive(Drop)]
pub struct State {
    pub vars: Variables,
    pub seen: Seen,
    pub out: Vec<u8>,
    pub fuel: u64,
}

/// Why a run of statements ends before their end.
#[derive(Clone, Copy, PartialEq, Eq)]
pub enum Halt {
    Trap(Trap),
    /// A loop turn wants fuel, and there is none.
    Fuel,
    Wrong,
    NoMemory,
}

impl From<Stop> for Halt {
    ghost from_gives = { λ stop halt. halt ≡ halt_of stop };

    fn from(stop: Stop) -> Halt {
        match stop {
            Stop::Trap(trap) => Halt::Trap(trap),
            Stop::Wrong => Halt::Wrong,
            Stop::NoMemory => Halt::NoMemory,
        }
    }
}

impl From<NoMemory> for Halt {
    ghost from_gives = { λ _ halt. halt ≡ NoMemory };

    fn from(_error: NoMemory) -> Halt {
        Halt::NoMemory
    }
}

/// A value of its own, copied where it is lent.
fn into_value(alloc: Global, held: Held) -> Result<Value, NoMemory>
    ensures { IfOk result (λ made. made ≡ held_value held.entry) }
{
    match held {
        Held::Lent(value) => copied(alloc, value),
        Held::Column(cells) => {
            let made = Sequence::from_slice(alloc, cells.as_slice())?;
            Ok(Value::List(Kind::Number, made))
        }
        Held::Made(value) => Ok(value),
    }
}

/// Evaluates an expression outside of all masks.
fn evaluate<'a>(
    supply: Supply<'a>,
    x: &Expr,
    vars: &'a Variables,
    seen: &mut Seen,
) -> Result<Held<'a>, Stop>
    ensures { Holds (value (supply_in supply.entry) (tree_of x.now) (outside vars.now) seen.old) result seen.new }
{
    let scope = Scope { vars, frame: None };
    value(supply, x, scope, seen)
}

/// `v = e`
fn run_assign(supply: Supply, name: &Name, x: &Expr, state: &mut State) -> Result<(), Halt>
    ensures { RunsTo (assign_run (supply_in supply.entry) name.now.bytes (tree_of x.now) (state_in state.old)) result (state_in state.new) }
{
    state.seen.begin()?;
    let held = evaluate(supply, x, &state.vars, &mut state.seen)?;
    let made = into_value(supply.alloc, held)?;
    let number = number_assigned(supply.numbers, x.id);
    state.vars.assign(supply.alloc, number, name, made)?;
    Ok(())
}

/// `println(e)`
fn run_print(supply: Supply, x: &Expr, state: &mut State) -> Result<(), Halt>
    ensures { RunsTo (print_run (supply_in supply.entry) (tree_of x.now) (state_in state.old)) result (state_in state.new) }
{
    state.seen.begin()?;
    let held = evaluate(supply, x, &state.vars, &mut state.seen)?;
    print(&mut state.out, held.look())?;
    Ok(())
}

/// `write_csv(e)`
fn run_export(supply: Supply, x: &Expr, state: &mut State) -> Result<(), Halt>
    ensures { RunsTo (export_run (supply_in supply.entry) (tree_of x.now) (state_in state.old)) result (state_in state.new) }
{
    state.seen.begin()?;
    let held = evaluate(supply, x, &state.vars, &mut state.seen)?;
    export(&mut state.out, held.look())?;
    Ok(())
}

/// The truth value of the test of an `if` or a `while`.
fn test_value(supply: Supply, x: &Expr, state: &mut State) -> Result<bool, Halt>
    ensures { TestsTo (supply_in supply.entry) (tree_of x.now) (state_in state.old) result (state_in state.new) }
{
    let held = evaluate(supply, x, &state.vars, &mut state.seen)?;
    let truth = held.look().word_of(Kind::Truth)?;
    Ok(is_true(truth))
}

/// Statements one after another.
#[cycle(statements)]
pub fn run(supply: Supply, body: &[Stmt], state: &mut State) -> Result<(), Halt>
    ensures { RunsTo (run (supply_in supply.entry) (block_of body.now) (state_in state.old)) result (state_in state.new) }
{
    for stmt in body {
        run_stmt(supply, stmt, state)?;
    }
    Ok(())
}

/// A statement.
#[cycle(statements)]
fn run_stmt(supply: Supply, stmt: &Stmt, state: &mut State) -> Result<(), Halt>
    ensures { RunsTo (run (supply_in supply.entry) (block_of (stmt.now ∷ [])) (state_in state.old)) result (state_in state.new) }
{
    match stmt {
        Stmt::Assign(_, name, x) => run_assign(supply, name, x, state),
        Stmt::Print(_, x) => run_print(supply, x, state),
        Stmt::Export(_, x) => run_export(supply, x, state),
        Stmt::If(_, test, first, second) => {
            state.seen.begin()?;
            if test_value(supply, test, state)? {
                run(supply, first.as_slice(), state)
            } else {
                run(supply, second.as_slice(), state)
            }
        }
        Stmt::While(_, test, body) => {
            state.seen.begin()?;
            run_turns(supply, body.as_slice(), test, state)
        }
    }
}

/// Begins a loop turn, which takes one fuel; where there is none, the run ends there.
fn begin_turn(state: &mut State) -> Result<(), Halt>
    ensures begun { OnOk result ((state.old.fuel ≢ 0) × (state_in state.new ≡ begun (turned (state_in state.old)))) }
    ensures spent { IfErr result (λ e. e ≢ halts.NoMemory → (e ≡ halts.Fuel) × (state.old.fuel ≡ 0) × (state_in state.new ≡ state_in state.old)) }
{
    if state.fuel == 0 {
        return Err(Halt::Fuel);
    }
    state.fuel -= 1;
    state.seen.begin()?;
    Ok(())
}

/// The turns of a loop: only a true test wants a turn, which takes one fuel.
#[cycle(statements)]
fn run_turns(supply: Supply, body: &[Stmt], test: &Expr, state: &mut State) -> Result<(), Halt>
    ensures { RunsTo (turns ((state_in state.old).fuel + 1) (decided (value (supply_in supply.entry) (tree_of test.now))) (in_turn (run (supply_in supply.entry) (block_of body.now))) (state_in state.old)) result (state_in state.new) }
{
    while test_value(supply, test, state)? {
        begin_turn(state)?;
        run(supply, body, state)?;
    }
    Ok(())
}
