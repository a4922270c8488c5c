// The constructs of the language, and which one an expression or a statement is.

ghost use Rattle.std.specs.Prelude.{◌≡◌};
ghost use Rattle.std.specs.Option.{option_copied};
ghost use Rattle.hp_script.specs.Mirror.{tree_of};
ghost use Rattle.hp_built.specs.Constructs.{unary_construct, binary_construct, product_construct, operator_construct, index_construct, call_construct, shape_at, valued_construct, construct_of, assigned_construct, printed_construct};

use hp_script::function::{Function, function_of};
use hp_script::tree::{BinOp, Expr, Form, UnOp};
use hp_script::typed::Shape;
use hp_word::place::NodeId;

/// A construct of the language, as far as ranks do it in a way of its own. A number, a truth value and the name of a
/// variable are none, nor is what has no value, as the name of a column where columns are named.
#[derive(Clone, Copy, Debug, PartialEq, Eq)]
pub enum Construct {
    /// `-a`, `a + b`, `a - b` and `a * b` of numbers.
    Arithmetic,
    /// `!a`
    Negation,
    /// The six comparisons of numbers.
    Comparison,
    /// `a && b` and `a || b`
    Lazy,
    /// `div`, `rem`, `min` and `max` of numbers.
    ScalarCall,
    /// `.+`, `.-`, `.*`, and the four functions with a dot.
    DottedArithmetic,
    /// The six comparisons with a dot.
    DottedComparison,
    /// `.&`, `.|` and `.!`
    DottedLogic,
    Map,
    Fill,
    Collect,
    Length,
    /// `sum`, `prod`, `minimum`, `maximum`, `any` and `all`
    Reduction,
    Count,
    Cumsum,
    Stencil,
    /// `a[i]`
    Element,
    /// `a[k]`, where the index is an array.
    Elements,
    Vcat,
    DataFrame,
    ReadCsv,
    /// `d.c`
    Field,
    /// `:c` in the mask of a filter.
    Column,
    Nrow,
    Filter,
    Join,
    Aggregate,
    Sort,
    Stack,
    Row,
    /// `A * B` of matrices.
    Product,
    /// `A * transpose(B)`
    TransposedProduct,
    /// An assignment of a number or a truth value, of an array, of a matrix and of a frame.
    AssignWord,
    AssignArray,
    AssignMatrix,
    AssignFrame,
    /// `println` of a number or a truth value, and of an array.
    PrintWord,
    PrintArray,
    /// `write_csv`
    Export,
    If,
    While,
}

/// An operator with one operand.
fn unary_construct(op: UnOp, dotted: bool) -> Construct
    ensures { result ≡ unary_construct op dotted }
{
    match op {
        UnOp::Neg => Construct::Arithmetic,
        UnOp::Not => {
            if dotted {
                Construct::DottedLogic
            } else {
                Construct::Negation
            }
        }
    }
}

/// An operator with two operands, but for the products of matrices.
fn binary_construct(op: BinOp, dotted: bool) -> Construct
    ensures { result ≡ binary_construct op dotted }
{
    match op {
        BinOp::Or | BinOp::And => Construct::Lazy,
        BinOp::BitOr | BinOp::BitAnd => Construct::DottedLogic,
        BinOp::Add | BinOp::Sub | BinOp::Mul => {
            if dotted {
                Construct::DottedArithmetic
            } else {
                Construct::Arithmetic
            }
        }
        BinOp::Eq | BinOp::Ne | BinOp::Lt | BinOp::Le | BinOp::Gt | BinOp::Ge => {
            if dotted {
                Construct::DottedComparison
            } else {
                Construct::Comparison
            }
        }
    }
}

/// A product of matrices, by the type of its right side: a call of `transpose` has no value of its own.
fn product_construct(right: Option<&Shape>) -> Construct
    ensures { result ≡ product_construct (option_copied right.entry) }
{
    match right {
        Some(_) => Construct::Product,
        None => Construct::TransposedProduct,
    }
}

/// An index, by the type of what is indexed and of the index.
fn index_construct(indexed: Option<&Shape>, index: Option<&Shape>) -> Option<Construct>
    ensures { result ≡ index_construct (option_copied indexed.entry) (option_copied index.entry) }
{
    indexed?;
    match index {
        Some(Shape::Ints) => Some(Construct::Elements),
        _ => Some(Construct::Element),
    }
}

/// A call of a function.
fn call_construct(function: Option<Function>, dotted: bool) -> Option<Construct>
    ensures { result ≡ call_construct function dotted }
{
    match function? {
        Function::Scalar(_) => {
            if dotted {
                Some(Construct::DottedArithmetic)
            } else {
                Some(Construct::ScalarCall)
            }
        }
        Function::Fold(_) => Some(Construct::Reduction),
        Function::Count => Some(Construct::Count),
        Function::Length => Some(Construct::Length),
        Function::Fill => Some(Construct::Fill),
        Function::Collect => Some(Construct::Collect),
        Function::Cumsum => Some(Construct::Cumsum),
        Function::Map => Some(Construct::Map),
        Function::Stencil => Some(Construct::Stencil),
        Function::Vcat => Some(Construct::Vcat),
        Function::DataFrame => Some(Construct::DataFrame),
        Function::ReadCsv => Some(Construct::ReadCsv),
        Function::Nrow => Some(Construct::Nrow),
        Function::Filter => Some(Construct::Filter),
        Function::Join => Some(Construct::Join),
        Function::Aggregate => Some(Construct::Aggregate),
        Function::Sort => Some(Construct::Sort),
        Function::Stack => Some(Construct::Stack),
        Function::Row => Some(Construct::Row),
        Function::Transpose => None,
    }
}

/// The type of the expression with this number, where it has a value.
pub fn shape_at(shapes: &[Option<Shape>], id: NodeId) -> Option<&Shape>
    ensures { option_copied result ≡ shape_at shapes.now id.0 }
{
    match shapes.get(id.0 as usize) {
        Some(Some(shape)) => Some(shape),
        _ => None,
    }
}

/// An operator with two operands, by the types of its right side and of its value.
fn operator_construct(op: BinOp, dotted: bool, right: Option<&Shape>, found: &Shape) -> Construct
    ensures { result ≡ operator_construct op dotted (option_copied right.entry) found.now }
{
    match found {
        Shape::Matrix => product_construct(right),
        _ => binary_construct(op, dotted),
    }
}

/// The construct of an expression that has a value of this type.
#[tactic(auto, using(crate::proofs::FormConstructs::valued))]
fn valued_construct(shapes: &[Option<Shape>], found: &Shape, x: &Expr) -> Option<Construct>
    ensures { result ≡ valued_construct shapes.now found.now (tree_of x.now) }
{
    match &x.form {
        Form::Number(_) | Form::Truth(_) | Form::Text(_) | Form::Name(_) => None,
        Form::Column(_) => Some(Construct::Column),
        Form::Field(..) => Some(Construct::Field),
        Form::Unary(op, dotted, _) => Some(unary_construct(*op, *dotted)),
        Form::Binary(op, dotted, _, right) => {
            let right = shape_at(shapes, right.get().id);
            Some(operator_construct(*op, *dotted, right, found))
        }
        Form::Index(indexed, index) => index_construct(
            shape_at(shapes, indexed.get().id),
            shape_at(shapes, index.get().id),
        ),
        Form::Call(function, dotted, _) => {
            call_construct(function_of(function.bytes.as_slice(), *dotted), *dotted)
        }
    }
}

/// The construct that an expression is, by the types of all expressions.
#[tactic(auto, using(crate::proofs::FormConstructs::construct_at))]
pub fn construct_of(shapes: &[Option<Shape>], x: &Expr) -> Option<Construct>
    ensures { result ≡ construct_of shapes.now (tree_of x.now) }
{
    match shape_at(shapes, x.id) {
        Some(found) => valued_construct(shapes, found, x),
        None => None,
    }
}

/// An assignment, by the type of its value.
pub fn assigned_construct(shape: Option<&Shape>) -> Option<Construct>
    ensures { result ≡ assigned_construct (option_copied shape.entry) }
{
    match shape? {
        Shape::Int | Shape::Bool => Some(Construct::AssignWord),
        Shape::Ints | Shape::Bools => Some(Construct::AssignArray),
        Shape::Matrix => Some(Construct::AssignMatrix),
        Shape::Frame(_) => Some(Construct::AssignFrame),
    }
}

/// A `println`, by the type of its value.
pub fn printed_construct(shape: Option<&Shape>) -> Option<Construct>
    ensures { result ≡ printed_construct (option_copied shape.entry) }
{
    match shape? {
        Shape::Int | Shape::Bool => Some(Construct::PrintWord),
        Shape::Ints | Shape::Bools => Some(Construct::PrintArray),
        Shape::Matrix | Shape::Frame(_) => None,
    }
}
