// What an evaluation makes of names, columns and operands.

ghost use Rattle.std.specs.Prelude.{◌≡◌};
ghost use Rattle.std.specs.Option.{option_map};
ghost use Rattle.hp_script.specs.Mirror.{tree_of};
ghost use Rattle.hp_meaning.specs.ArgumentShapes.{is_transpose, transposed_operand, flipped_operand};
ghost use Rattle.hp_meaning.specs.FrameRules.{field_value};
ghost use Rattle.hp_meaning.specs.HeldValues.{looked, held_value, made_of, scope_in, FindsAll};
ghost use Rattle.hp_meaning.specs.Operands.{as_numbers};
ghost use Rattle.hp_meaning.specs.Outcomes.{Gives, Tells, given};
ghost use Rattle.hp_meaning.specs.Scopes.{value_named};
ghost use Rattle.hp_meaning.specs.ValueOf.{is_product, operator_value, column_value};

use crate::args::one_plain;
use crate::columns::column_of;
use crate::held::{Held, Look};
use crate::matrices::multiplied;
use crate::numbers::{Numbers, number_read};
use crate::operators::{dotted_value, plain_value};
use crate::scope::Scope;
use crate::seen::Stop;
use crate::value::{Kind, Value};
use hp_script::function::{Function, function_of};
use hp_script::tree::{BinOp, Expr, Form};
use hp_word::name::Name;
use hp_word::place::{NodeId, Place};
use hp_word::sequence::Sequence;
use std::alloc::Global;

/// A variable.
#[tactic(auto, unfolding(crate::specs::Outcomes::halted))]
pub fn name_value<'a>(
    numbers: &[Numbers],
    id: NodeId,
    name: &Name,
    scope: Scope<'a>,
) -> Result<Held<'a>, Stop>
    ensures { Tells (given (value_named name.now.bytes (scope_in scope.entry).vars) Gives) (made_of result) }
{
    let number = number_read(numbers, id);
    let found = scope.vars.value_named(number, name.bytes.as_slice())?;
    Ok(Held::Lent(found))
}

/// `:c` in the mask of a filter.
#[tactic(auto, unfolding(crate::specs::ValueOf::column_value, crate::specs::FrameRules::field_value, crate::specs::Outcomes::halted))]
pub fn column_value<'a>(name: &Name, scope: Scope<'a>) -> Result<Held<'a>, Stop>
    ensures { Tells (column_value name.now.bytes (scope_in scope.entry).frame) (made_of result) }
{
    let Some(columns) = scope.frame else {
        return Err(Stop::Wrong);
    };
    let cells = column_of(name.bytes.as_slice(), columns)?;
    Ok(Held::Column(cells))
}

/// `d.c`
#[tactic(auto, unfolding(crate::specs::FrameRules::field_value, crate::specs::Outcomes::halted))]
pub fn field_value<'a>(
    numbers: &[Numbers],
    id: NodeId,
    name: &Name,
    of_it: &Name,
    scope: Scope<'a>,
) -> Result<Held<'a>, Stop>
    ensures { Tells (given (value_named name.now.bytes (scope_in scope.entry).vars) (field_value of_it.now.bytes)) (made_of result) }
{
    let number = number_read(numbers, id);
    let found = scope.vars.value_named(number, name.bytes.as_slice())?;
    let Value::Frame(columns) = found else {
        return Err(Stop::Wrong);
    };
    let cells = column_of(of_it.bytes.as_slice(), columns.as_slice())?;
    Ok(Held::Column(cells))
}

/// Whether an operator multiplies words or matrices.
fn is_product(op: BinOp, dotted: bool) -> bool
    ensures { result ≡ is_product op dotted }
{
    !dotted && matches!(op, BinOp::Mul)
}

/// An operator on two values, but for `&&` and `||`.
#[tactic(auto, unfolding(crate::specs::ValueOf::operator_value, crate::specs::Outcomes::halted))]
pub fn operator_value(
    alloc: Global,
    at: Place,
    op: BinOp,
    dotted: bool,
    a: Look,
    b: Look,
) -> Result<Value, Stop>
    ensures { Tells (operator_value at op dotted (looked a.entry) (looked b.entry)) result }
{
    if dotted {
        return dotted_value(alloc, at, op, a, b);
    }
    match a {
        Look::Matrix(left) => {
            if !is_product(op, false) {
                return Err(Stop::Wrong);
            }
            let right = b.matrix()?;
            multiplied(alloc, at, left, right)
        }
        _ => plain_value(at, op, a, b),
    }
}

/// Whether a function is `transpose`.
fn is_transpose(function: Option<Function>) -> bool
    ensures { result ≡ is_transpose function }
{
    matches!(function, Some(Function::Transpose))
}

/// The argument, where an expression is a call of `transpose`.
#[tactic(auto, using(crate::proofs::TreeSizes::tree_call), unfolding(crate::specs::ArgumentShapes::transposed_operand, hp_script::specs::Mirror::tree_of, hp_script::specs::Mirror::form_of))]
fn transposed_operand(x: &Expr) -> Option<&Expr>
    ensures { option_map (λ y. tree_of y.now) result ≡ transposed_operand (tree_of x.now) }
{
    let Form::Call(name, dotted, args) = &x.form else {
        return None;
    };
    if !is_transpose(function_of(name.bytes.as_slice(), *dotted)) {
        return None;
    }
    let Ok(operand) = one_plain(args.as_slice()) else {
        return None;
    };
    Some(operand)
}

/// The argument, where the second side of a product is a call of `transpose`.
#[tactic(auto, unfolding(crate::specs::ArgumentShapes::flipped_operand))]
pub fn flipped_operand(op: BinOp, dotted: bool, right: &Expr) -> Option<&Expr>
    ensures { option_map (λ y. tree_of y.now) result ≡ flipped_operand op dotted (tree_of right.now) }
{
    if is_product(op, dotted) {
        transposed_operand(right)
    } else {
        None
    }
}

/// The numbers of an array, copied where they are lent.
pub fn into_numbers(alloc: Global, held: Held) -> Result<Sequence<i64>, Stop>
    ensures { FindsAll (λ xs. xs) (as_numbers (held_value held.entry)) result }
{
    match held {
        Held::Made(Value::List(Kind::Number, xs)) => Ok(xs),
        other => {
            let xs = other.look().list_of(Kind::Number)?;
            Ok(Sequence::from_slice(alloc, xs)?)
        }
    }
}
