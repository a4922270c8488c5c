// What calls make of the values of their arguments.

ghost use Rattle.std.specs.Prelude.{◌≡◌, ◌==◌, position};
ghost use Rattle.std.specs.Option.{option_copied};
ghost use Rattle.hp_script.specs.Mirror.{tree_of, args_of};
ghost use Rattle.hp_meaning.specs.Dispatch.{one_value, two_value, lambda_value, table_value};
ghost use Rattle.hp_meaning.specs.HeldValues.{looked, supply_in};
ghost use Rattle.hp_meaning.specs.Outcomes.{Tells};
ghost use Rattle.hp_meaning.specs.ReadCalls.{table_for};

use crate::args::{first_plain, is_text, names_in};
use crate::frames::{rows_value, tabled};
use crate::held::Look;
use crate::lambdas::{mapped, stencilled};
use crate::lists::{concatenated, counted, filled, folded, length_value, summed};
use crate::matrices::row_value;
use crate::operators::scalar_value;
use crate::scope::Supply;
use crate::seen::Stop;
use crate::value::{Value, Var};
use hp_script::function::Function;
use hp_script::tree::{Arg, Expr};
use hp_word::place::{NodeId, Place};
use hp_word::table::Table;
use std::alloc::Global;

/// A call with one argument that has a value.
#[tactic(auto, unfolding(crate::specs::Dispatch::one_value, crate::specs::Outcomes::halted))]
pub fn one_value(alloc: Global, function: Function, at: Place, a: Look) -> Result<Value, Stop>
    ensures { Tells (one_value function at (looked a.entry)) result }
{
    match function {
        Function::Fold(kind) => folded(kind, at, a),
        Function::Count => counted(a),
        Function::Length => length_value(a),
        Function::Cumsum => summed(alloc, a),
        Function::Nrow => rows_value(a),
        _ => Err(Stop::Wrong),
    }
}

/// A call with two arguments that have values.
#[tactic(auto, unfolding(crate::specs::Dispatch::two_value, crate::specs::Outcomes::halted))]
pub fn two_value(
    alloc: Global,
    function: Function,
    dotted: bool,
    at: Place,
    a: Look,
    b: Look,
) -> Result<Value, Stop>
    ensures { Tells (two_value function dotted at (looked a.entry) (looked b.entry)) result }
{
    match function {
        Function::Scalar(scalar) => scalar_value(alloc, scalar, dotted, at, a, b),
        Function::Fill => filled(alloc, at, a, b),
        Function::Vcat => concatenated(alloc, at, a, b),
        Function::Row => row_value(alloc, at, a, b),
        _ => Err(Stop::Wrong),
    }
}

/// A call with a lambda.
#[tactic(auto, unfolding(crate::specs::Dispatch::lambda_value, crate::specs::Outcomes::halted, hp_script::specs::Mirror::form_of, hp_script::specs::Mirror::tree_of))]
pub fn lambda_value(
    alloc: Global,
    function: Function,
    vars: &[Var],
    parameter: &[u8],
    body: &Expr,
    a: Look,
) -> Result<Value, Stop>
    ensures { Tells (lambda_value function vars.now parameter.now (tree_of body.now) (looked a.entry)) result }
{
    match function {
        Function::Map => mapped(alloc, vars, parameter, body, a),
        Function::Stencil => stencilled(alloc, vars, parameter, body, a),
        _ => Err(Stop::Wrong),
    }
}

/// Where the number of a call stands among those of the calls that read tables.
fn place_among(reads: &[u32], id: NodeId) -> Option<usize>
    ensures { result ≡ position (λ k. k == id.0) reads.now }
{
    reads.iter().position(|read| *read == id.0)
}

/// The table of the call with this number.
fn table_for<'a>(reads: &[u32], id: NodeId, tables: &'a [Table]) -> Option<&'a Table>
    ensures { option_copied result ≡ table_for reads.now id.0 tables.now }
{
    match place_among(reads, id) {
        Some(place) => tables.get(place),
        None => None,
    }
}

/// `read_csv("f", :c, :d)`
#[tactic(auto, unfolding(crate::specs::Dispatch::table_value, crate::specs::Outcomes::halted, hp_script::specs::Mirror::arg_of, hp_script::specs::Mirror::args_of, hp_script::specs::Mirror::tree_of))]
pub fn table_value(supply: Supply, id: NodeId, args: &[Arg]) -> Result<Value, Stop>
    ensures { Tells (table_value (supply_in supply.entry) id.0 (args_of args.now)) result }
{
    let (first, rest) = first_plain(args)?;
    if rest.is_empty() || !is_text(first) {
        return Err(Stop::Wrong);
    }
    let names = names_in(supply.alloc, rest)?;
    let table = table_for(supply.reads, id, supply.tables);
    tabled(supply.alloc, names.as_slice(), table)
}
