// The arguments of calls: tested in order, and what each is to its call.

ghost use Rattle.std.specs.Prelude.{◌≡◌, not, IsTrue, ◌<◌, ◌++◌, [], ◌∷◌, flat_map, length, Option, Some, None, OnOk};
ghost use Rattle.std.specs.Option.{option_or};
ghost use Rattle.hp_script.specs.declared.argument.Argument.TheVariants.{Given, Measure};
ghost use Rattle.hp_script.specs.declared.rule.Rule.TheVariants.{DoubleColumn};
ghost use Rattle.hp_script.specs.declared.function.Function.TheVariants as functions;
ghost use Rattle.hp_script.specs.Breaks.{unless, plain_break, range_break, lambda_break, named_break, measure_break, names_among};
ghost use Rattle.hp_script.specs.Entries.{plain_entries, named_entries, files_in, files_among, no_shapes};
ghost use Rattle.hp_script.specs.Mirror.{tree_of, args_of};
ghost use Rattle.hp_script.specs.Scope.{has, with_parameter};
ghost use Rattle.hp_script.specs.Typing.{wanted, role_wanted, inside, frames_among, value_or_misfit, plain_argument, range_argument, lambda_argument, named_argument};
ghost use Rattle.hp_script.specs.Valued.{is_measure};
ghost use Rattle.hp_script.specs.Walk.{break_of, shape_of, entries_of, site, found_among, entries_among, in_turn, finds_of};
ghost use Rattle.hp_types.specs.Answers.{Tells, Gives, GivesNext, Grew};
ghost use Rattle.hp_types.specs.Known.{call_seen};

use crate::before::{Before, CallSoFar};
use crate::error::{CheckError, broken, demand};
use crate::expression::expression;
use crate::forms::{add_measure, is_measure, test_measure};
use crate::found::Found;
use crate::scope::Scope;
use crate::wanted::{Meant, columns_for_mask, known_in, wanted_by};
use hp_script::argument::Argument;
use hp_script::function::Function;
use hp_script::rule::Rule;
use hp_script::tree::{Arg, Expr, Form};
use hp_script::typed::Shape;
use hp_word::name::{Name, copied_name};
use hp_word::place::Place;
use std::alloc::Global;

/// The arguments of a call at a place, in the order in which they are tested.
#[cycle(expressions)]
pub fn arguments(
    alloc: Global,
    scope: &Scope<'_>,
    found: &mut Found,
    function: Function,
    at: Place,
    args: &[Arg],
) -> Result<Before, CheckError>
    ensures told { Gives (found_among function (finds_of (site scope.now at function) (args_of args.now))).refusal (found_among function (finds_of (site scope.now at function) (args_of args.now))).arguments result }
    ensures grew { OnOk result (Grew found.old found.new (entries_among function (found_among function (finds_of (site scope.now at function) (args_of args.now)))) (files_among (args_of args.now))) }
{
    match function {
        Function::Map => array_first(alloc, scope, found, at, args),
        _ => among(alloc, scope, found, function, at, args),
    }
}

/// The arguments of `map` at a place: the lambda is tested behind the array.
#[cycle(expressions)]
fn array_first(
    alloc: Global,
    scope: &Scope<'_>,
    found: &mut Found,
    at: Place,
    args: &[Arg],
) -> Result<Before, CheckError>
    ensures told { Gives (found_among functions.Map (finds_of (site scope.now at functions.Map) (args_of args.now))).refusal (found_among functions.Map (finds_of (site scope.now at functions.Map) (args_of args.now))).arguments result }
    ensures grew { OnOk result (Grew found.old found.new (entries_among functions.Map (found_among functions.Map (finds_of (site scope.now at functions.Map) (args_of args.now)))) (files_among (args_of args.now))) }
{
    let Some((first, rest)) = args.split_first() else {
        return Ok(Before::new(alloc));
    };
    let mut later = Found::new(alloc);
    let others = among(alloc, scope, &mut later, Function::Map, at, rest)?;
    let arguments = with_next(alloc, scope, found, Function::Map, at, others, first)?;
    found.append(later)?;
    Ok(arguments)
}

/// The arguments of a call at a place, in the order of the text.
#[cycle(expressions)]
fn among(
    alloc: Global,
    scope: &Scope<'_>,
    found: &mut Found,
    function: Function,
    at: Place,
    args: &[Arg],
) -> Result<Before, CheckError>
    ensures told { Gives (in_turn [] (finds_of (site scope.now at function) (args_of args.now))).refusal (in_turn [] (finds_of (site scope.now at function) (args_of args.now))).arguments result }
    ensures grew { OnOk result (Grew found.old found.new (flat_map (λ entries. entries) (in_turn [] (finds_of (site scope.now at function) (args_of args.now))).entries) (files_among (args_of args.now))) }
{
    let mut before = Before::new(alloc);
    for arg in args {
        before = with_next(alloc, scope, found, function, at, before, arg)?;
    }
    Ok(before)
}

/// The arguments of a call at a place that are tested so far, and the next behind them.
#[cycle(expressions)]
fn with_next(
    alloc: Global,
    scope: &Scope<'_>,
    found: &mut Found,
    function: Function,
    at: Place,
    before: Before,
    arg: &Arg,
) -> Result<Before, CheckError>
    ensures told { Gives (in_turn before (finds_of (site scope.now at function) (args_of (arg.now ∷ [])))).refusal (in_turn before (finds_of (site scope.now at function) (args_of (arg.now ∷ [])))).arguments result }
    ensures grew { OnOk result (Grew found.old found.new (flat_map (λ entries. entries) (in_turn before (finds_of (site scope.now at function) (args_of (arg.now ∷ [])))).entries) (files_among (args_of (arg.now ∷ [])))) }
{
    let call = CallSoFar {
        function,
        at,
        before: &before,
    };
    let next = argument(alloc, scope, found, &call, arg)?;
    Ok(before.with(alloc, next)?)
}

/// An argument behind others, of a call at a place.
#[cycle(expressions)]
fn argument(
    alloc: Global,
    scope: &Scope<'_>,
    found: &mut Found,
    call: &CallSoFar<'_>,
    arg: &Arg,
) -> Result<Argument, CheckError>
    ensures told { GivesNext (in_turn call.now.before.now (finds_of (site scope.now call.now.at call.now.function) (args_of (arg.now ∷ [])))).refusal call.now.before.now (in_turn call.now.before.now (finds_of (site scope.now call.now.at call.now.function) (args_of (arg.now ∷ [])))).arguments result }
    ensures grew { OnOk result (Grew found.old found.new (flat_map (λ entries. entries) (in_turn call.now.before.now (finds_of (site scope.now call.now.at call.now.function) (args_of (arg.now ∷ [])))).entries) (files_among (args_of (arg.now ∷ [])))) }
{
    match arg {
        Arg::Plain(x) => plain(alloc, scope, found, call, x),
        Arg::Range(first, last) => range(alloc, scope, found, call, first, last),
        Arg::Lambda(parameter, x) => lambda(alloc, scope, found, call, parameter, x),
        Arg::Named(name, place, x) => named(alloc, scope, found, call, name, *place, x),
    }
}

/// A plain argument.
#[cycle(expressions)]
fn plain(
    alloc: Global,
    scope: &Scope<'_>,
    found: &mut Found,
    call: &CallSoFar<'_>,
    x: &Expr,
) -> Result<Argument, CheckError>
    ensures told { Gives (plain_break (wanted call.now.function call.now.before.now) (call_seen call.now) (tree_of x.now) (break_of (inside scope.now call.now.function call.now.before.now) (tree_of x.now)))
        (plain_argument (wanted call.now.function call.now.before.now) (tree_of x.now) (shape_of (inside scope.now call.now.function call.now.before.now) (tree_of x.now))) result }
    ensures grew { OnOk result (Grew found.old found.new (plain_entries (wanted call.now.function call.now.before.now) (tree_of x.now) (entries_of (inside scope.now call.now.function call.now.before.now) (tree_of x.now))) (files_in (tree_of x.now))) }
{
    match wanted_by(call) {
        Meant::Nothing => Err(broken(call.at, Rule::WrongType)),
        Meant::Text => match &x.form {
            Form::Text(text) => {
                found.add_none()?;
                Ok(Argument::Text(copied_name(alloc, text)?))
            }
            Form::Column(_) => Err(broken(x.at, Rule::WrongType)),
            _ => value(alloc, scope, found, call, x),
        },
        Meant::Column(frames) => match &x.form {
            Form::Column(name) => {
                demand(
                    known_in(frames, name.bytes.as_slice()),
                    x.at,
                    Rule::UnknownColumn,
                )?;
                demand(
                    !call.before.names(name.bytes.as_slice()),
                    x.at,
                    Rule::DoubleColumn,
                )?;
                found.add_none()?;
                Ok(Argument::Column(copied_name(alloc, name)?))
            }
            _ => value(alloc, scope, found, call, x),
        },
        _ => value(alloc, scope, found, call, x),
    }
}

/// A plain argument that is a value.
#[cycle(expressions)]
fn value(
    alloc: Global,
    scope: &Scope<'_>,
    found: &mut Found,
    call: &CallSoFar<'_>,
    x: &Expr,
) -> Result<Argument, CheckError>
    ensures told { Gives (break_of (inside scope.now call.now.function call.now.before.now) (tree_of x.now)) (value_or_misfit (shape_of (inside scope.now call.now.function call.now.before.now) (tree_of x.now))) result }
    ensures grew { OnOk result (Grew found.old found.new (entries_of (inside scope.now call.now.function call.now.before.now) (tree_of x.now)) (files_in (tree_of x.now))) }
{
    let shape = operand(alloc, scope, found, call, x)?;
    Ok(Argument::Value(shape))
}

/// The expression of an argument as a value; that of a filter sees the columns of the argument before.
#[cycle(expressions)]
fn operand(
    alloc: Global,
    scope: &Scope<'_>,
    found: &mut Found,
    call: &CallSoFar<'_>,
    x: &Expr,
) -> Result<Shape, CheckError>
    ensures told { Tells (break_of (inside scope.now call.now.function call.now.before.now) (tree_of x.now)) (shape_of (inside scope.now call.now.function call.now.before.now) (tree_of x.now)) result }
    ensures grew { OnOk result (Grew found.old found.new (entries_of (inside scope.now call.now.function call.now.before.now) (tree_of x.now)) (files_in (tree_of x.now))) }
{
    match call.function {
        Function::Filter if !call.before.is_empty() => {
            let inner = (&*scope).with_columns(alloc, columns_for_mask(&*call.before))?;
            expression(alloc, &inner, found, x)
        }
        _ => expression(alloc, scope, found, x),
    }
}

/// A range.
#[cycle(expressions)]
fn range(
    alloc: Global,
    scope: &Scope<'_>,
    found: &mut Found,
    call: &CallSoFar<'_>,
    first: &Expr,
    last: &Expr,
) -> Result<Argument, CheckError>
    ensures told { Gives (range_break (wanted call.now.function call.now.before.now) call.now.at (option_or (break_of scope.now (tree_of first.now)) (break_of scope.now (tree_of last.now))))
        (range_argument (shape_of scope.now (tree_of first.now)) (shape_of scope.now (tree_of last.now))) result }
    ensures grew { OnOk result (Grew found.old found.new (entries_of scope.now (tree_of first.now) ++ entries_of scope.now (tree_of last.now)) (files_in (tree_of first.now) ++ files_in (tree_of last.now))) }
{
    let Meant::Interval = wanted_by(call) else {
        return Err(broken(call.at, Rule::WrongType));
    };
    let a = expression(alloc, scope, found, first)?;
    let b = expression(alloc, scope, found, last)?;
    Ok(interval_of(&a, &b))
}

/// A lambda.
#[cycle(expressions)]
fn lambda(
    alloc: Global,
    scope: &Scope<'_>,
    found: &mut Found,
    call: &CallSoFar<'_>,
    parameter: &Name,
    x: &Expr,
) -> Result<Argument, CheckError>
    ensures told { Gives (lambda_break (wanted call.now.function call.now.before.now) call.now.at (break_of (with_parameter scope.now parameter.now.bytes (role_wanted (wanted call.now.function call.now.before.now))) (tree_of x.now)))
        (lambda_argument (shape_of (with_parameter scope.now parameter.now.bytes (role_wanted (wanted call.now.function call.now.before.now))) (tree_of x.now))) result }
    ensures grew { OnOk result (Grew found.old found.new (entries_of (with_parameter scope.now parameter.now.bytes (role_wanted (wanted call.now.function call.now.before.now))) (tree_of x.now)) (files_in (tree_of x.now))) }
{
    let Meant::Lambda(role) = wanted_by(call) else {
        return Err(broken(call.at, Rule::WrongType));
    };
    let inner = (&*scope).with_parameter(alloc, &*parameter, role)?;
    let shape = expression(alloc, &inner, found, x)?;
    Ok(Argument::Body(shape))
}

/// A named argument, its name at the second place.
#[cycle(expressions)]
fn named(
    alloc: Global,
    scope: &Scope<'_>,
    found: &mut Found,
    call: &CallSoFar<'_>,
    name: &Name,
    place: Place,
    x: &Expr,
) -> Result<Argument, CheckError>
    ensures told { Gives (named_break (wanted call.now.function call.now.before.now) (call_seen call.now) name.now.bytes place (tree_of x.now) (break_of (inside scope.now call.now.function call.now.before.now) (tree_of x.now)))
        (named_argument (wanted call.now.function call.now.before.now) name.now.bytes (tree_of x.now) (shape_of (inside scope.now call.now.function call.now.before.now) (tree_of x.now))) result }
    ensures grew { OnOk result (Grew found.old found.new (named_entries (wanted call.now.function call.now.before.now) (tree_of x.now) (entries_of (inside scope.now call.now.function call.now.before.now) (tree_of x.now))) (files_in (tree_of x.now))) }
{
    match wanted_by(call) {
        Meant::Nothing => Err(broken(call.at, Rule::WrongType)),
        Meant::Given => {
            let shape = operand(alloc, scope, found, call, x)?;
            given(alloc, call.before, name, place, shape)
        }
        Meant::Measure(frames) => {
            if is_measure(x) {
                return measure(alloc, found, frames, call.before, name, place, x);
            }
            let shape = operand(alloc, scope, found, call, x)?;
            given(alloc, call.before, name, place, shape)
        }
        _ => {
            operand(alloc, scope, found, call, x)?;
            Err(broken(place, Rule::WrongType))
        }
    }
}

/// What a range is, by the types of its ends.
fn interval_of(first: &Shape, last: &Shape) -> Argument
    ensures { result ≡ range_argument (Some first.now) (Some last.now) }
{
    match (first, last) {
        (Shape::Int, Shape::Int) => Argument::Interval,
        _ => Argument::Misfit,
    }
}

/// A measure that is given a name at a place.
fn measure(
    alloc: Global,
    found: &mut Found,
    frames: &[Argument],
    before: &Before,
    name: &Name,
    place: Place,
    x: &Expr,
) -> Result<Argument, CheckError>
    requires { IsTrue (is_measure (tree_of x.now)) }
    ensures told { Gives (option_or (measure_break (frames_among frames.now) (tree_of x.now)) (unless (not (has name.now.bytes (names_among before.now))) place DoubleColumn)) (Measure name.now) result }
    ensures grew { OnOk result (Grew found.old found.new (no_shapes (tree_of x.now)) []) }
{
    test_measure(frames, x)?;
    demand(
        !before.names(name.bytes.as_slice()),
        place,
        Rule::DoubleColumn,
    )?;
    add_measure(found, x)?;
    Ok(Argument::Measure(copied_name(alloc, name)?))
}

/// A name that is given a value of this type, at a place.
fn given(
    alloc: Global,
    before: &Before,
    name: &Name,
    place: Place,
    shape: Shape,
) -> Result<Argument, CheckError>
    ensures { Gives (unless (not (has name.now.bytes (names_among before.now))) place DoubleColumn) (Given name.now shape) result }
{
    demand(
        !before.names(name.bytes.as_slice()),
        place,
        Rule::DoubleColumn,
    )?;
    Ok(Argument::Given(copied_name(alloc, name)?, shape))
}
