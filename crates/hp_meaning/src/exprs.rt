// The values of expressions.

ghost use Rattle.std.specs.Prelude.{◌≡◌};
ghost use Rattle.hp_script.specs.Mirror.{head, tree_of, args_of};
ghost use Rattle.hp_meaning.specs.Dispatch.{one_value, two_value, lambda_value, unary_operand};
ghost use Rattle.hp_meaning.specs.HeldValues.{looked, supply_in, scope_in, Holds};
ghost use Rattle.hp_meaning.specs.ListRules.{collected};
ghost use Rattle.hp_meaning.specs.Outcomes.{ComesTo};
ghost use Rattle.hp_meaning.specs.ValueOf.{value, parts, one, two, ends, with_lambda, rows_among, columns_among, called, filter_call, filtered_by, join_call, aggregate_call, sort_call, binary_value, strict_operands, lazy_operands, flipped_operands, index_operands};

use crate::args::{
    column_name, first_plain, lambda_and_plain, measures_in, one_plain, one_range, three_plain,
    two_plain,
};
use crate::calls::{lambda_value, one_value, table_value, two_value};
use crate::columns::copied_name;
use crate::frames::{filtered, framed};
use crate::groups::grouped;
use crate::held::{Held, Look, made};
use crate::joins::joined;
use crate::lists::{collected, indexed};
use crate::matrices::{flipped_value, stacked};
use crate::operands::{
    column_value, field_value, flipped_operand, into_numbers, name_value, operator_value,
};
use crate::operators::{decides, decision, is_lazy, unary_value};
use crate::scope::{Scope, Supply};
use crate::seen::{Seen, Stop};
use crate::sorting::sorted_value;
use crate::value::{Column, Kind, Value};
use hp_script::function::{Function, function_of};
use hp_script::tree::{Arg, BinOp, Expr, Form, UnOp};
use hp_word::place::{NodeId, Place};
use hp_word::sequence::Sequence;
use hp_word::word::word_of;

/// The value of an expression in a scope.
#[cycle(values)]
pub fn value<'a>(
    supply: Supply<'a>,
    x: &Expr,
    scope: Scope<'a>,
    seen: &mut Seen,
) -> Result<Held<'a>, Stop>
    ensures { Holds (value (supply_in supply.entry) (tree_of x.now) (scope_in scope.entry) seen.old) result seen.new }
{
    seen.begin()?;
    match &x.form {
        Form::Number(number) => Ok(Held::Made(Value::Word(Kind::Number, *number))),
        Form::Truth(holds) => Ok(Held::Made(Value::Word(Kind::Truth, word_of(*holds)))),
        Form::Text(_) => Err(Stop::Wrong),
        Form::Name(name) => name_value(supply.numbers, x.id, name, scope),
        Form::Column(name) => column_value(name, scope),
        Form::Field(name, of_it) => field_value(supply.numbers, x.id, name, of_it, scope),
        Form::Unary(op, dotted, operand) => {
            made(unary(supply, *op, *dotted, operand.get(), scope, seen))
        }
        Form::Binary(op, dotted, a, b) => {
            made(binary(supply, x.at, *op, *dotted, a.get(), b.get(), scope, seen))
        }
        Form::Index(array, index) => {
            made(element(supply, x.at, array.get(), index.get(), scope, seen))
        }
        Form::Call(name, dotted, args) => {
            let function = function_of(name.bytes.as_slice(), *dotted);
            let args = args.as_slice();
            made(call(supply, x.id, x.at, function, *dotted, args, scope, seen))
        }
    }
}

/// An operator on one operand.
#[cycle(values)]
fn unary(
    supply: Supply,
    op: UnOp,
    dotted: bool,
    operand: &Expr,
    scope: Scope,
    seen: &mut Seen,
) -> Result<Value, Stop>
    ensures { ComesTo (unary_operand op dotted (value (supply_in supply.entry) (tree_of operand.now)) (scope_in scope.entry) seen.old) result seen.new }
{
    let a = value(supply, operand, scope, seen)?;
    unary_value(supply.alloc, op, dotted, a.look())
}

/// An operator on two sides.
#[cycle(values)]
fn binary(
    supply: Supply,
    at: Place,
    op: BinOp,
    dotted: bool,
    left: &Expr,
    right: &Expr,
    scope: Scope,
    seen: &mut Seen,
) -> Result<Value, Stop>
    ensures { ComesTo (binary_value (supply_in supply.entry) at op dotted (tree_of left.now) (tree_of right.now) (scope_in scope.entry) seen.old) result seen.new }
{
    if let Some(operand) = flipped_operand(op, dotted, right) {
        return flipped(supply, at, left, operand, scope, seen);
    }
    if is_lazy(op) {
        if dotted {
            return Err(Stop::Wrong);
        }
        return lazily(supply, op, left, right, scope, seen);
    }
    strictly(supply, at, op, dotted, left, right, scope, seen)
}

/// An operator of which both sides are evaluated.
#[cycle(values)]
fn strictly(
    supply: Supply,
    at: Place,
    op: BinOp,
    dotted: bool,
    left: &Expr,
    right: &Expr,
    scope: Scope,
    seen: &mut Seen,
) -> Result<Value, Stop>
    ensures { ComesTo (strict_operands at op dotted (value (supply_in supply.entry) (tree_of left.now)) (value (supply_in supply.entry) (tree_of right.now)) (scope_in scope.entry) seen.old) result seen.new }
{
    let a = value(supply, left, scope, seen)?;
    let b = value(supply, right, scope, seen)?;
    operator_value(supply.alloc, at, op, dotted, a.look(), b.look())
}

/// `A * transpose(B)`
#[cycle(values)]
fn flipped(
    supply: Supply,
    at: Place,
    left: &Expr,
    right: &Expr,
    scope: Scope,
    seen: &mut Seen,
) -> Result<Value, Stop>
    ensures { ComesTo (flipped_operands at (value (supply_in supply.entry) (tree_of left.now)) (value (supply_in supply.entry) (tree_of right.now)) (scope_in scope.entry) seen.old) result seen.new }
{
    let a = value(supply, left, scope, seen)?;
    let b = value(supply, right, scope, seen)?;
    flipped_value(supply.alloc, at, a.look(), b.look())
}

/// `&&` or `||`, whose second side is evaluated only where the first does not decide.
#[cycle(values)]
fn lazily(
    supply: Supply,
    op: BinOp,
    left: &Expr,
    right: &Expr,
    scope: Scope,
    seen: &mut Seen,
) -> Result<Value, Stop>
    ensures { ComesTo (lazy_operands op (value (supply_in supply.entry) (tree_of left.now)) (value (supply_in supply.entry) (tree_of right.now)) (scope_in scope.entry) seen.old) result seen.new }
{
    let a = value(supply, left, scope, seen)?;
    let x = a.look().word_of(Kind::Truth)?;
    if decides(op, x) {
        return Ok(Value::Word(Kind::Truth, decision(op)));
    }
    let b = value(supply, right, scope, seen)?;
    let y = b.look().word_of(Kind::Truth)?;
    Ok(Value::Word(Kind::Truth, y))
}

/// `a[i]` and `a[k]`
#[cycle(values)]
fn element(
    supply: Supply,
    at: Place,
    array: &Expr,
    index: &Expr,
    scope: Scope,
    seen: &mut Seen,
) -> Result<Value, Stop>
    ensures { ComesTo (index_operands at (value (supply_in supply.entry) (tree_of array.now)) (value (supply_in supply.entry) (tree_of index.now)) (scope_in scope.entry) seen.old) result seen.new }
{
    let a = value(supply, array, scope, seen)?;
    let i = value(supply, index, scope, seen)?;
    indexed(supply.alloc, at, a.look(), i.look())
}

/// A call of a function.
#[cycle(values)]
fn call(
    supply: Supply,
    id: NodeId,
    at: Place,
    function: Option<Function>,
    dotted: bool,
    args: &[Arg],
    scope: Scope,
    seen: &mut Seen,
) -> Result<Value, Stop>
    ensures { ComesTo (called (supply_in supply.entry) function (head id.0 at) dotted (parts (supply_in supply.entry) (args_of args.now)) (scope_in scope.entry) seen.old) result seen.new }
{
    let Some(called) = function else {
        return Err(Stop::Wrong);
    };
    match called {
        Function::Scalar(_) | Function::Fill | Function::Vcat | Function::Row => two_call(
            supply, called, dotted, at, args, scope, seen,
        ),
        Function::Fold(_)
        | Function::Count
        | Function::Length
        | Function::Cumsum
        | Function::Nrow => one_call(supply, called, at, args, scope, seen),
        Function::Map | Function::Stencil => lambda_call(supply, called, args, scope, seen),
        Function::Collect => range_call(supply, at, args, scope, seen),
        Function::DataFrame => framed(at, columns(supply, args, scope, seen)?),
        Function::Stack => stacked(supply.alloc, at, rows(supply, args, scope, seen)?),
        Function::ReadCsv => table_value(supply, id, args),
        Function::Filter => filter_call(supply, at, args, scope, seen),
        Function::Join => join_call(supply, at, args, scope, seen),
        Function::Aggregate => aggregate_call(supply, args, scope, seen),
        Function::Sort => sort_call(supply, args, scope, seen),
        Function::Transpose => Err(Stop::Wrong),
    }
}

/// A call with one argument that has a value.
#[cycle(values)]
fn one_call(
    supply: Supply,
    function: Function,
    at: Place,
    args: &[Arg],
    scope: Scope,
    seen: &mut Seen,
) -> Result<Value, Stop>
    ensures { ComesTo (one (parts (supply_in supply.entry) (args_of args.now)) (scope_in scope.entry) seen.old (one_value function at)) result seen.new }
{
    let x = one_plain(args)?;
    let a = value(supply, x, scope, seen)?;
    one_value(supply.alloc, function, at, a.look())
}

/// A call with two arguments that have values.
#[cycle(values)]
fn two_call(
    supply: Supply,
    function: Function,
    dotted: bool,
    at: Place,
    args: &[Arg],
    scope: Scope,
    seen: &mut Seen,
) -> Result<Value, Stop>
    ensures { ComesTo (two (parts (supply_in supply.entry) (args_of args.now)) (scope_in scope.entry) seen.old (two_value function dotted at)) result seen.new }
{
    let (x, y) = two_plain(args)?;
    let a = value(supply, x, scope, seen)?;
    let b = value(supply, y, scope, seen)?;
    two_value(supply.alloc, function, dotted, at, a.look(), b.look())
}

/// `collect(a:b)`
#[cycle(values)]
fn range_call(
    supply: Supply,
    at: Place,
    args: &[Arg],
    scope: Scope,
    seen: &mut Seen,
) -> Result<Value, Stop>
    ensures { ComesTo (ends (parts (supply_in supply.entry) (args_of args.now)) (scope_in scope.entry) seen.old (collected at)) result seen.new }
{
    let (x, y) = one_range(args)?;
    let a = value(supply, x, scope, seen)?;
    let b = value(supply, y, scope, seen)?;
    collected(supply.alloc, at, a.look(), b.look())
}

/// A call with a lambda.
#[cycle(values)]
fn lambda_call(
    supply: Supply,
    function: Function,
    args: &[Arg],
    scope: Scope,
    seen: &mut Seen,
) -> Result<Value, Stop>
    ensures { ComesTo (with_lambda (parts (supply_in supply.entry) (args_of args.now)) (scope_in scope.entry) seen.old (lambda_value function (scope_in scope.entry).vars)) result seen.new }
{
    let (parameter, body, x) = lambda_and_plain(args)?;
    let a = value(supply, x, scope, seen)?;
    let parameter = parameter.bytes.as_slice();
    let vars = scope.vars.as_slice();
    lambda_value(supply.alloc, function, vars, parameter, body, a.look())
}

/// The arrays that the arguments are.
#[cycle(values)]
fn rows(
    supply: Supply,
    args: &[Arg],
    scope: Scope,
    seen: &mut Seen,
) -> Result<Sequence<Sequence<i64>>, Stop>
    ensures { ComesTo (rows_among (parts (supply_in supply.entry) (args_of args.now)) (scope_in scope.entry) seen.old) result seen.new }
{
    let mut made = Sequence::new(supply.alloc);
    for arg in args {
        let Arg::Plain(x) = arg else {
            return Err(Stop::Wrong);
        };
        let a = value(supply, x, scope, seen)?;
        made.push(into_numbers(supply.alloc, a)?)?;
    }
    Ok(made)
}

/// The columns that the arguments are.
#[cycle(values)]
fn columns(
    supply: Supply,
    args: &[Arg],
    scope: Scope,
    seen: &mut Seen,
) -> Result<Sequence<Column>, Stop>
    ensures { ComesTo (columns_among (parts (supply_in supply.entry) (args_of args.now)) (scope_in scope.entry) seen.old) result seen.new }
{
    let mut made = Sequence::new(supply.alloc);
    for arg in args {
        let Arg::Named(name, _, x) = arg else {
            return Err(Stop::Wrong);
        };
        let a = value(supply, x, scope, seen)?;
        let cells = into_numbers(supply.alloc, a)?;
        let name = copied_name(supply.alloc, name)?;
        made.push(Column { name, cells })?;
    }
    Ok(made)
}

/// `filter(d, m)`, whose mask sees the columns of the frame.
#[cycle(values)]
fn filter_call(
    supply: Supply,
    at: Place,
    args: &[Arg],
    scope: Scope,
    seen: &mut Seen,
) -> Result<Value, Stop>
    ensures { ComesTo (filter_call at (parts (supply_in supply.entry) (args_of args.now)) (scope_in scope.entry) seen.old) result seen.new }
{
    let (x, y) = two_plain(args)?;
    let a = value(supply, x, scope, seen)?;
    masked(supply, at, a.look(), y, scope, seen)
}

/// The rows of a frame where a test holds, which sees the columns of the frame.
#[cycle(values)]
fn masked(
    supply: Supply,
    at: Place,
    a: Look,
    test: &Expr,
    scope: Scope,
    seen: &mut Seen,
) -> Result<Value, Stop>
    ensures { ComesTo (filtered_by at (looked a.entry) (value (supply_in supply.entry) (tree_of test.now)) (scope_in scope.entry) seen.old) result seen.new }
{
    let columns = a.frame()?;
    let within = Scope {
        vars: scope.vars,
        frame: Some(columns),
    };
    let mask = value(supply, test, within, seen)?;
    filtered(supply.alloc, at, columns, mask.look())
}

/// `join(l, r, :k)`
#[cycle(values)]
fn join_call(
    supply: Supply,
    at: Place,
    args: &[Arg],
    scope: Scope,
    seen: &mut Seen,
) -> Result<Value, Stop>
    ensures { ComesTo (join_call (supply_in supply.entry) at (parts (supply_in supply.entry) (args_of args.now)) (scope_in scope.entry) seen.old) result seen.new }
{
    let (x, y, z) = three_plain(args)?;
    let key = column_name(z)?.bytes.as_slice();
    let a = value(supply, x, scope, seen)?;
    let b = value(supply, y, scope, seen)?;
    joined(
        supply.alloc,
        supply.orders,
        at,
        key,
        a.look(),
        b.look(),
        &mut seen.met,
    )
}

/// `aggregate(d, :k, c = f, e = g)`
#[cycle(values)]
fn aggregate_call(
    supply: Supply,
    args: &[Arg],
    scope: Scope,
    seen: &mut Seen,
) -> Result<Value, Stop>
    ensures { ComesTo (aggregate_call (supply_in supply.entry) (parts (supply_in supply.entry) (args_of args.now)) (scope_in scope.entry) seen.old) result seen.new }
{
    let (x, others) = first_plain(args)?;
    let (y, rest) = first_plain(others)?;
    let key = column_name(y)?.bytes.as_slice();
    let measures = measures_in(supply.alloc, rest)?;
    if measures.is_empty() {
        return Err(Stop::Wrong);
    }
    let a = value(supply, x, scope, seen)?;
    grouped(
        supply.alloc,
        supply.orders,
        key,
        measures.as_slice(),
        a.look(),
        &mut seen.met,
    )
}

/// `sort(d, :k)`
#[cycle(values)]
fn sort_call(supply: Supply, args: &[Arg], scope: Scope, seen: &mut Seen) -> Result<Value, Stop>
    ensures { ComesTo (sort_call (parts (supply_in supply.entry) (args_of args.now)) (scope_in scope.entry) seen.old) result seen.new }
{
    let (x, y) = two_plain(args)?;
    let key = column_name(y)?.bytes.as_slice();
    let a = value(supply, x, scope, seen)?;
    sorted_value(supply.alloc, key, a.look())
}
