// Expressions: tested in order, and their types.

ghost use Rattle.std.specs.Prelude.{◌≡◌, IsTrue, ◌<◌, ◌++◌, [], ◌∷◌, length, if◌then◌else◌, slice_set, Bool, true, false, Option, Some, None, OnOk, IfOk};
ghost use Rattle.std.specs.Option.{option_or, is_some};
ghost use Rattle.hp_script.specs.declared.rule.Rule.TheVariants.{WrongType};
ghost use Rattle.hp_script.specs.declared.typed.Shape.TheVariants as shapes;
ghost use Rattle.hp_script.specs.Breaks.{is_flipped, call_break, reach_break, distance_of, place_of};
ghost use Rattle.hp_script.specs.Entries.{of_known, files_in, files_among, file_of_call};
ghost use Rattle.hp_script.specs.Functions.{function_named};
ghost use Rattle.hp_script.specs.Mirror.{head, tree_of, args_of, unary, binary, index, call};
ghost use Rattle.hp_script.specs.Results.{of_both, binary_result, call_result};
ghost use Rattle.hp_script.specs.Typing.{is_window};
ghost use Rattle.hp_script.specs.Walk.{break_of, shape_of, entries_of, parts_break, site, found_among, entries_among, finds_of};
ghost use Rattle.hp_types.specs.Answers.{Passes, Tells, Gives, GivesParts, Grew};

use crate::arguments::arguments;
use crate::before::Before;
use crate::error::{CheckError, broken, demand};
use crate::forms::{add_distance, file_of, is_flipped, is_window, settle, test_call, test_reach};
use crate::found::Found;
use crate::results::{binary_result, call_result, index_result, unary_result};
use crate::scope::Scope;
use hp_script::function::{Function, function_of};
use hp_script::rule::Rule;
use hp_script::tree::{Arg, BinOp, Expr, Form, UnOp};
use hp_script::typed::Shape;
use hp_word::place::{NoMemory, Place};
use std::alloc::Global;

/// Adds an expression without parts, and gives its type.
fn known(found: &mut Found, shape: Shape) -> Result<Shape, CheckError>
    ensures told { Tells None (Some shape) result }
    ensures grew { OnOk result (Grew found.old found.new (Some shape ∷ []) []) }
{
    found.add(&shape)?;
    Ok(shape)
}

/// Tests an expression as a value, and gives its type.
#[cycle(expressions)]
pub fn expression(
    alloc: Global,
    scope: &Scope<'_>,
    found: &mut Found,
    x: &Expr,
) -> Result<Shape, CheckError>
    ensures told { Tells (break_of scope.now (tree_of x.now)) (shape_of scope.now (tree_of x.now)) result }
    ensures grew { OnOk result (Grew found.old found.new (entries_of scope.now (tree_of x.now)) (files_in (tree_of x.now))) }
{
    match &x.form {
        Form::Number(_) => known(found, Shape::Int),
        Form::Truth(_) => known(found, Shape::Bool),
        Form::Text(_) => Err(broken(x.at, Rule::WrongType)),
        Form::Name(name) => {
            let shape = scope.name(x.at, name.bytes.as_slice())?;
            known(found, shape)
        }
        Form::Column(name) => {
            scope.column(x.at, name.bytes.as_slice())?;
            known(found, Shape::Ints)
        }
        Form::Field(name, column) => {
            scope.field(x.at, name.bytes.as_slice(), column.bytes.as_slice())?;
            known(found, Shape::Ints)
        }
        Form::Unary(op, dotted, operand) => {
            unary(alloc, scope, found, x.at, *op, *dotted, operand.get())
        }
        Form::Binary(op, dotted, left, right) => {
            binary(
                alloc,
                scope,
                found,
                x.at,
                *op,
                *dotted,
                left.get(),
                right.get(),
            )
        }
        Form::Index(array, place) => {
            indexed(alloc, scope, found, x.at, array.get(), place.get())
        }
        Form::Call(name, dotted, args) => {
            call(
                alloc,
                scope,
                found,
                x.at,
                name.bytes.as_slice(),
                *dotted,
                args.as_slice(),
            )
        }
    }
}

/// An operator with one operand, at a place.
#[tactic(auto, unfolding(hp_script::specs::Walk::found_of, hp_script::specs::Entries::files_in))]
#[cycle(expressions)]
fn unary(
    alloc: Global,
    scope: &Scope<'_>,
    found: &mut Found,
    at: Place,
    op: UnOp,
    dotted: bool,
    operand: &Expr,
) -> Result<Shape, CheckError>
    ensures told { Tells (break_of scope.now (unary (head 0 at) op dotted (tree_of operand.now))) (shape_of scope.now (unary (head 0 at) op dotted (tree_of operand.now))) result }
    ensures grew { OnOk result (Grew found.old found.new (entries_of scope.now (unary (head 0 at) op dotted (tree_of operand.now))) (files_in (tree_of operand.now))) }
{
    let number = found.add_none()?;
    let shape = expression(alloc, scope, found, operand)?;
    settle(found, number, at, unary_result(op, dotted, &shape))
}

/// The type of the result of an operator, whose right operand may have no value.
fn result_of_both(op: BinOp, dotted: bool, a: &Shape, b: &Option<Shape>) -> Option<Shape>
    ensures { result ≡ of_both (binary_result op dotted) (Some a.now) b.now }
{
    match b {
        Some(b) => binary_result(op, dotted, a, b),
        None => None,
    }
}

/// An operator with two operands, at a place.
#[tactic(auto, unfolding(hp_script::specs::Walk::found_of, hp_script::specs::Entries::files_in))]
#[cycle(expressions)]
fn binary(
    alloc: Global,
    scope: &Scope<'_>,
    found: &mut Found,
    at: Place,
    op: BinOp,
    dotted: bool,
    left: &Expr,
    right: &Expr,
) -> Result<Shape, CheckError>
    ensures told { Tells (break_of scope.now (binary (head 0 at) op dotted (tree_of left.now) (tree_of right.now))) (shape_of scope.now (binary (head 0 at) op dotted (tree_of left.now) (tree_of right.now))) result }
    ensures grew { OnOk result (Grew found.old found.new (entries_of scope.now (binary (head 0 at) op dotted (tree_of left.now) (tree_of right.now))) (files_in (tree_of left.now) ++ files_in (tree_of right.now))) }
{
    let a = expression(alloc, scope, found, left)?;
    let number = found.add_none()?;
    let b = right_side(alloc, scope, found, op, dotted, right)?;
    settle(found, number, at, result_of_both(op, dotted, &a, &b))
}

/// The right side of an operator, which in a product may be a transposed matrix.
#[cycle(expressions)]
fn right_side(
    alloc: Global,
    scope: &Scope<'_>,
    found: &mut Found,
    op: BinOp,
    dotted: bool,
    x: &Expr,
) -> Result<Option<Shape>, CheckError>
    ensures told { Gives (if is_flipped scope.now op dotted (tree_of x.now) then parts_break scope.now (tree_of x.now) else break_of scope.now (tree_of x.now)) (shape_of scope.now (tree_of x.now)) result }
    ensures grew { OnOk result (Grew found.old found.new (entries_of scope.now (tree_of x.now)) (files_in (tree_of x.now))) }
{
    if is_flipped(scope, op, dotted, x) {
        if let Form::Call(name, plain, args) = &x.form {
            let called = parts(
                alloc,
                scope,
                found,
                x.at,
                name.bytes.as_slice(),
                *plain,
                args.as_slice(),
            )?;
            return Ok(called.1);
        }
    }
    let shape = expression(alloc, scope, found, x)?;
    Ok(Some(shape))
}

/// An index, with its bracket at a place.
#[tactic(auto, unfolding(hp_script::specs::Walk::found_of, hp_script::specs::Entries::files_in))]
#[cycle(expressions)]
fn indexed(
    alloc: Global,
    scope: &Scope<'_>,
    found: &mut Found,
    at: Place,
    array: &Expr,
    place: &Expr,
) -> Result<Shape, CheckError>
    ensures told { Tells (break_of scope.now (index (head 0 at) (tree_of array.now) (tree_of place.now))) (shape_of scope.now (index (head 0 at) (tree_of array.now) (tree_of place.now))) result }
    ensures grew { OnOk result (Grew found.old found.new (entries_of scope.now (index (head 0 at) (tree_of array.now) (tree_of place.now))) (files_in (tree_of array.now) ++ files_in (tree_of place.now))) }
{
    if is_window(scope, array) {
        return near(scope, found, at, array, place);
    }
    let a = expression(alloc, scope, found, array)?;
    let number = found.add_none()?;
    let b = expression(alloc, scope, found, place)?;
    demand(!scope.is_in_lambda(), at, Rule::WrongType)?;
    settle(found, number, at, index_result(&a, &b))
}

/// `p[d]` of a stencil's parameter, with its bracket at a place.
fn near(
    scope: &Scope<'_>,
    found: &mut Found,
    at: Place,
    array: &Expr,
    place: &Expr,
) -> Result<Shape, CheckError>
    requires { IsTrue (is_window scope.now (tree_of array.now)) }
    ensures told { Tells (reach_break (place_of (tree_of array.now)) at (distance_of (tree_of place.now))) (Some shapes.Int) result }
    ensures grew { OnOk result (Grew found.old found.new (None ∷ Some shapes.Int ∷ entries_of scope.now (tree_of place.now)) []) }
{
    test_reach(array.at, at, place)?;
    found.add_none()?;
    found.add(&Shape::Int)?;
    add_distance(found, place)?;
    Ok(Shape::Int)
}

/// A call at a place.
#[tactic(auto, unfolding(hp_script::specs::Walk::found_of, hp_script::specs::Entries::files_in))]
#[cycle(expressions)]
fn call(
    alloc: Global,
    scope: &Scope<'_>,
    found: &mut Found,
    at: Place,
    name: &[u8],
    dotted: bool,
    args: &[Arg],
) -> Result<Shape, CheckError>
    ensures told { Tells (break_of scope.now (call (head 0 at) name.now dotted (args_of args.now))) (shape_of scope.now (call (head 0 at) name.now dotted (args_of args.now))) result }
    ensures grew { OnOk result (Grew found.old found.new (entries_of scope.now (call (head 0 at) name.now dotted (args_of args.now))) (files_in (call (head 0 at) name.now dotted (args_of args.now)))) }
{
    let number = found.shapes.len();
    let (function, shape) = parts(alloc, scope, found, at, name, dotted, args)?;
    test_call(alloc, scope, function, at, &shape)?;
    settle(found, number, at, shape)
}

/// A call but for the test of the call itself: its function, and the type of its result.
#[tactic(auto, using(crate::proofs::ExpressionForms::count_args), unfolding(hp_script::specs::Walk::found_of))]
#[cycle(expressions)]
fn parts(
    alloc: Global,
    scope: &Scope<'_>,
    found: &mut Found,
    at: Place,
    name: &[u8],
    dotted: bool,
    args: &[Arg],
) -> Result<(Function, Option<Shape>), CheckError>
    ensures told { GivesParts (parts_break scope.now (call (head 0 at) name.now dotted (args_of args.now))) (function_named dotted name.now) (λ f. call_result f dotted (found_among f (finds_of (site scope.now at f) (args_of args.now))).arguments) result }
    ensures grew { OnOk result (Grew found.old found.new
        (None ∷ of_known (function_named dotted name.now) (λ f. entries_among f (found_among f (finds_of (site scope.now at f) (args_of args.now)))))
        (file_of_call name.now dotted (args_of args.now) ++ files_among (args_of args.now))) }
{
    let Some(function) = function_of(name, dotted) else {
        return Err(broken(at, Rule::UnknownCall));
    };
    demand(function.takes(args.len()), at, Rule::WrongCount)?;
    found.add_none()?;
    found.add_file(file_of(alloc, name, dotted, args)?)?;
    let given = arguments(alloc, scope, found, function, at, args)?;
    let shape = result_of_call(alloc, function, dotted, given)?;
    Ok((function, shape))
}

/// The type of the result of a call with all these arguments.
fn result_of_call(
    alloc: Global,
    function: Function,
    dotted: bool,
    arguments: Before,
) -> Result<Option<Shape>, NoMemory>
    ensures { IfOk result (λ shape. shape ≡ call_result function dotted arguments) }
{
    call_result(alloc, function, dotted, arguments.as_slice())
}
