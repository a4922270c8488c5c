// The types of the results of operators and calls.

ghost use Rattle.std.specs.Prelude.{◌≡◌, IfOk, Some, None};
ghost use Rattle.std.specs.Option.{option_map};
ghost use Rattle.hp_script.specs.declared.typed.Shape.TheVariants.{Frame};
ghost use Rattle.hp_types.specs.Calls.{only_value, both_values, result_of_one, result_of_two, plain_result};
ghost use Rattle.hp_script.specs.Results.{map_result, stencil_result, collect_result, spreads_numbers, spreads_truths, are_numbers, are_truths, are_matrices, arithmetic_result, comparison_result, logic_result, mask_result, product_result, binary_result, unary_result, index_result, array_of, fold_result, are_arrays, call_result};

use crate::frames::{aggregate_result, given_names, join_result, read_result, same_columns};
use hp_script::argument::Argument;
use hp_script::columns::{ColumnName, Columns};
use hp_script::function::Function;
use hp_script::tree::{BinOp, UnOp};
use hp_script::typed::Shape;
use hp_word::fold::FoldKind;
use hp_word::place::NoMemory;
use hp_word::sequence::Sequence;
use std::alloc::Global;

/// The type, where a test holds.
fn some_if(holds: bool, shape: Shape) -> Option<Shape>
    ensures { result ≡ Rattle.hp_script.specs.Results.some_if holds shape }
{
    if holds { Some(shape) } else { None }
}

/// Whether two values are arrays of numbers, or one is and the other a number.
fn spreads_numbers(a: &Shape, b: &Shape) -> bool
    ensures { result ≡ spreads_numbers a.now b.now }
{
    match (a, b) {
        (Shape::Ints, Shape::Ints | Shape::Int) | (Shape::Int, Shape::Ints) => true,
        _ => false,
    }
}

/// Whether two values are arrays of truth values, or one is and the other a truth value.
fn spreads_truths(a: &Shape, b: &Shape) -> bool
    ensures { result ≡ spreads_truths a.now b.now }
{
    match (a, b) {
        (Shape::Bools, Shape::Bools | Shape::Bool) | (Shape::Bool, Shape::Bools) => true,
        _ => false,
    }
}

/// Whether both values are numbers.
fn are_numbers(a: &Shape, b: &Shape) -> bool
    ensures { result ≡ are_numbers a.now b.now }
{
    matches!(a, Shape::Int) && matches!(b, Shape::Int)
}

/// Whether both values are truth values.
fn are_truths(a: &Shape, b: &Shape) -> bool
    ensures { result ≡ are_truths a.now b.now }
{
    matches!(a, Shape::Bool) && matches!(b, Shape::Bool)
}

/// Whether both values are matrices.
fn are_matrices(a: &Shape, b: &Shape) -> bool
    ensures { result ≡ are_matrices a.now b.now }
{
    matches!(a, Shape::Matrix) && matches!(b, Shape::Matrix)
}

/// The result of `+` and `-`, and of `div`, `rem`, `min` and `max`.
fn arithmetic_result(dotted: bool, a: &Shape, b: &Shape) -> Option<Shape>
    ensures { result ≡ arithmetic_result dotted a.now b.now }
{
    if dotted {
        some_if(spreads_numbers(a, b), Shape::Ints)
    } else {
        some_if(are_numbers(a, b), Shape::Int)
    }
}

/// The result of a comparison.
fn comparison_result(dotted: bool, a: &Shape, b: &Shape) -> Option<Shape>
    ensures { result ≡ comparison_result dotted a.now b.now }
{
    if dotted {
        some_if(spreads_numbers(a, b), Shape::Bools)
    } else {
        some_if(are_numbers(a, b), Shape::Bool)
    }
}

/// The result of `&&` and `||`.
fn logic_result(dotted: bool, a: &Shape, b: &Shape) -> Option<Shape>
    ensures { result ≡ logic_result dotted a.now b.now }
{
    if dotted {
        None
    } else {
        some_if(are_truths(a, b), Shape::Bool)
    }
}

/// The result of `.&` and `.|`.
fn mask_result(dotted: bool, a: &Shape, b: &Shape) -> Option<Shape>
    ensures { result ≡ mask_result dotted a.now b.now }
{
    if dotted {
        some_if(spreads_truths(a, b), Shape::Bools)
    } else {
        None
    }
}

/// The result of a product.
fn product_result(dotted: bool, a: &Shape, b: &Shape) -> Option<Shape>
    ensures { result ≡ product_result dotted a.now b.now }
{
    if dotted {
        some_if(spreads_numbers(a, b), Shape::Ints)
    } else if are_matrices(a, b) {
        Some(Shape::Matrix)
    } else {
        some_if(are_numbers(a, b), Shape::Int)
    }
}

/// The type of the result of an operator with two operands, where they fit.
pub fn binary_result(op: BinOp, dotted: bool, a: &Shape, b: &Shape) -> Option<Shape>
    ensures { result ≡ binary_result op dotted a.now b.now }
{
    match op {
        BinOp::Or | BinOp::And => logic_result(dotted, a, b),
        BinOp::Eq | BinOp::Ne | BinOp::Lt | BinOp::Le | BinOp::Gt | BinOp::Ge => {
            comparison_result(dotted, a, b)
        }
        BinOp::Add | BinOp::Sub => arithmetic_result(dotted, a, b),
        BinOp::BitOr | BinOp::BitAnd => mask_result(dotted, a, b),
        BinOp::Mul => product_result(dotted, a, b),
    }
}

/// The type of the result of an operator with one operand, where it fits.
pub fn unary_result(op: UnOp, dotted: bool, a: &Shape) -> Option<Shape>
    ensures { result ≡ unary_result op dotted a.now }
{
    match (op, dotted, a) {
        (UnOp::Neg, false, Shape::Int) => Some(Shape::Int),
        (UnOp::Not, false, Shape::Bool) => Some(Shape::Bool),
        (UnOp::Not, true, Shape::Bools) => Some(Shape::Bools),
        _ => None,
    }
}

/// The type of an element or of several elements of an array, where the index fits.
pub fn index_result(array: &Shape, index: &Shape) -> Option<Shape>
    ensures { result ≡ index_result array.now index.now }
{
    match (array, index) {
        (Shape::Ints, Shape::Int) => Some(Shape::Int),
        (Shape::Bools, Shape::Int) => Some(Shape::Bool),
        (Shape::Ints, Shape::Ints) => Some(Shape::Ints),
        (Shape::Bools, Shape::Ints) => Some(Shape::Bools),
        _ => None,
    }
}

/// The type of the only argument, where it is a value.
fn only_value(arguments: &[Argument]) -> Option<&Shape>
    ensures { option_map (λ shape. shape.now) result ≡ only_value arguments.now }
{
    match arguments.first() {
        Some(Argument::Value(shape)) if arguments.len() == 1 => Some(shape),
        _ => None,
    }
}

/// The types of the two arguments, where they are values.
fn both_values(arguments: &[Argument]) -> Option<(&Shape, &Shape)>
    ensures { option_map (λ both. (both.0.now, both.1.now)) result ≡ both_values arguments.now }
{
    let (first, rest) = arguments.split_first()?;
    let second = only_value(rest)?;
    match first {
        Argument::Value(shape) => Some((shape, second)),
        _ => None,
    }
}

/// The array of elements of a type.
fn array_of(element: &Shape) -> Option<Shape>
    ensures { result ≡ array_of element.now }
{
    match element {
        Shape::Int => Some(Shape::Ints),
        Shape::Bool => Some(Shape::Bools),
        _ => None,
    }
}

/// The result of a fold of an array.
fn fold_result(kind: FoldKind, array: &Shape) -> Option<Shape>
    ensures { result ≡ fold_result kind array.now }
{
    match (kind, array) {
        (FoldKind::Any | FoldKind::All, Shape::Bools) => Some(Shape::Bool),
        (FoldKind::Any | FoldKind::All, _) => None,
        (_, Shape::Ints) => Some(Shape::Int),
        _ => None,
    }
}

/// The result of a function of one value.
fn result_of_one(function: Function, value: &Shape) -> Option<Shape>
    ensures { result ≡ result_of_one function value.now }
{
    match (function, value) {
        (Function::Fold(kind), _) => fold_result(kind, value),
        (Function::Count, Shape::Bools) => Some(Shape::Int),
        (Function::Length, Shape::Ints | Shape::Bools) => Some(Shape::Int),
        (Function::Cumsum, Shape::Ints) => Some(Shape::Ints),
        (Function::Nrow, Shape::Frame(_)) => Some(Shape::Int),
        (Function::Transpose, Shape::Matrix) => Some(Shape::Matrix),
        _ => None,
    }
}

/// The result of a function of two values but for `filter`.
fn result_of_two(function: Function, dotted: bool, a: &Shape, b: &Shape) -> Option<Shape>
    ensures { result ≡ result_of_two function dotted a.now b.now }
{
    match (function, a, b) {
        (Function::Scalar(_), _, _) => arithmetic_result(dotted, a, b),
        (Function::Fill, _, Shape::Int) => array_of(a),
        (Function::Vcat, Shape::Ints, Shape::Ints) => Some(Shape::Ints),
        (Function::Vcat, Shape::Bools, Shape::Bools) => Some(Shape::Bools),
        (Function::Row, Shape::Matrix, Shape::Int) => Some(Shape::Ints),
        _ => None,
    }
}

/// The result of `map`, whose array is the first argument here.
fn map_result(arguments: &[Argument]) -> Option<Shape>
    ensures { result ≡ map_result arguments.now }
{
    let (first, rest) = arguments.split_first()?;
    match (first, rest.first()) {
        (Argument::Value(_), Some(Argument::Body(made))) if rest.len() == 1 => array_of(made),
        _ => None,
    }
}

/// The result of `stencil`.
fn stencil_result(arguments: &[Argument]) -> Option<Shape>
    ensures { result ≡ stencil_result arguments.now }
{
    let (first, rest) = arguments.split_first()?;
    match (first, rest.first()) {
        (Argument::Body(Shape::Int), Some(Argument::Value(Shape::Ints))) if rest.len() == 1 => {
            Some(Shape::Ints)
        }
        _ => None,
    }
}

/// The result of `collect`.
fn collect_result(arguments: &[Argument]) -> Option<Shape>
    ensures { result ≡ collect_result arguments.now }
{
    match arguments.first() {
        Some(Argument::Interval) if arguments.len() == 1 => Some(Shape::Ints),
        _ => None,
    }
}

/// Whether all arguments are arrays of numbers.
fn are_arrays(arguments: &[Argument]) -> bool
    ensures { result ≡ are_arrays arguments.now }
{
    for argument in arguments {
        if !matches!(argument, Argument::Value(Shape::Ints)) {
            return false;
        }
    }
    true
}

/// The result of a call but for those that give a frame.
#[tactic(auto, unfolding(hp_script::specs::Results::call_result))]
fn plain_result(function: Function, dotted: bool, arguments: &[Argument]) -> Option<Shape>
    ensures { result ≡ plain_result function dotted arguments.now }
{
    match function {
        Function::Map => map_result(arguments),
        Function::Stencil => stencil_result(arguments),
        Function::Collect => collect_result(arguments),
        Function::Stack => some_if(are_arrays(arguments), Shape::Matrix),
        Function::Scalar(_) | Function::Fill | Function::Vcat | Function::Row => {
            let (a, b) = both_values(arguments)?;
            result_of_two(function, dotted, a, b)
        }
        _ => {
            let value = only_value(arguments)?;
            result_of_one(function, value)
        }
    }
}

/// The frame of these columns, if there are any.
fn framed(columns: Option<Sequence<ColumnName>>) -> Result<Option<Shape>, NoMemory>
    ensures { IfOk result (λ shape. shape ≡ option_map Frame columns) }
{
    match columns {
        Some(columns) => Ok(Some(Shape::Frame(Columns::of(columns)?))),
        None => Ok(None),
    }
}

/// The frame of columns that are held already, if there are any.
fn framed_as(columns: Option<Columns>) -> Option<Shape>
    ensures { result ≡ option_map Frame columns }
{
    Some(Shape::Frame(columns?))
}

/// The type of the result of a call, where the arguments fit. They stand in the order in which they are tested.
#[tactic(auto, unfolding(hp_script::specs::Results::call_result))]
pub fn call_result(
    alloc: Global,
    function: Function,
    dotted: bool,
    arguments: &[Argument],
) -> Result<Option<Shape>, NoMemory>
    ensures { IfOk result (λ shape. shape ≡ call_result function dotted arguments.now) }
{
    match function {
        Function::DataFrame => framed(given_names(alloc, arguments)?),
        Function::ReadCsv => framed(read_result(alloc, arguments)?),
        Function::Filter => Ok(framed_as(same_columns(false, arguments)?)),
        Function::Sort => Ok(framed_as(same_columns(true, arguments)?)),
        Function::Join => framed(join_result(alloc, arguments)?),
        Function::Aggregate => framed(aggregate_result(alloc, arguments)?),
        _ => Ok(plain_result(function, dotted, arguments)),
    }
}
