// The stencils of a script, each of which has a balanced copy of its array, in the order of their slots.

ghost use Rattle.std.specs.Prelude.{◌≡◌, ◌∷◌, [], ◌++◌, OnOk, IfOk};
ghost use Rattle.hp_script.specs.Mirror.{tree_of, args_of, block_of};
ghost use Rattle.hp_script.specs.Functions.{function_named};
ghost use Rattle.hp_normal.specs.Values.{values_among, first_width, copy_by, copies_in, copies_among, copies_of};

use crate::spans::{shape_in, width_of};
use crate::values::values_among;
use hp_script::function::{Function, function_of};
use hp_script::tree::{Arg, Expr, Form, Stmt};
use hp_script::typed::Shape;
use hp_word::place::{NoMemory, NodeId};
use std::alloc::Global;

/// Of how many arrays the first of some values is.
fn first_width(shapes: &[Option<Shape>], values: &[u32]) -> usize
    ensures { result ≡ first_width shapes.now values.now }
{
    match values {
        [node, ..] => width_of(shape_in(shapes, NodeId(*node))),
        [] => 0,
    }
}

/// Adds a call, where it is a stencil of one array.
fn add_copy(
    args: &[Arg],
    shapes: &[Option<Shape>],
    copies: &mut Vec<u32>,
    id: NodeId,
    function: &[u8],
    dotted: bool,
) -> Result<(), NoMemory>
    ensures { OnOk result (copies.new.items ≡ copies.old.items ++ copy_by shapes.now id.0 dotted (function_named dotted function.now) (values_among (args_of args.now))) }
{
    let found = function_of(function, dotted);
    if dotted {
        return Ok(());
    }
    let Some(Function::Stencil) = found else {
        return Ok(());
    };
    let values = values_among(*copies.allocator(), args)?;
    if first_width(shapes, values.as_slice()) == 1 {
        copies.push(id.0)?;
    }
    Ok(())
}

/// Adds the stencils in an expression.
#[cycle(copies)]
#[tactic(auto, using(crate::proofs::CopyForms::expression_copies))]
fn add_copies(x: &Expr, shapes: &[Option<Shape>], copies: &mut Vec<u32>) -> Result<(), NoMemory>
    ensures { OnOk result (copies.new.items ≡ copies.old.items ++ copies_in shapes.now (tree_of x.now)) }
{
    match &x.form {
        Form::Unary(_, _, operand) => add_copies(operand.get(), shapes, copies),
        Form::Binary(_, _, left, right) => {
            add_copies(left.get(), shapes, copies)?;
            add_copies(right.get(), shapes, copies)
        }
        Form::Index(array, index) => {
            add_copies(array.get(), shapes, copies)?;
            add_copies(index.get(), shapes, copies)
        }
        Form::Call(function, dotted, args) => {
            add_copies_among(args.as_slice(), shapes, copies)?;
            let name = function.bytes.as_slice();
            add_copy(args.as_slice(), shapes, copies, x.id, name, *dotted)
        }
        Form::Number(_)
        | Form::Truth(_)
        | Form::Text(_)
        | Form::Name(_)
        | Form::Column(_)
        | Form::Field(..) => Ok(()),
    }
}

/// Adds the stencils in arguments.
#[cycle(copies)]
#[tactic(auto, using(crate::proofs::CopyForms::expression_copies))]
fn add_copies_among(
    args: &[Arg],
    shapes: &[Option<Shape>],
    copies: &mut Vec<u32>,
) -> Result<(), NoMemory>
    ensures { OnOk result (copies.new.items ≡ copies.old.items ++ copies_among shapes.now (args_of args.now)) }
{
    for arg in args {
        add_copies_at(arg, shapes, copies)?;
    }
    Ok(())
}

/// Adds the stencils in an argument.
#[cycle(copies)]
#[tactic(auto, using(crate::proofs::CopyForms::expression_copies))]
fn add_copies_at(arg: &Arg, shapes: &[Option<Shape>], copies: &mut Vec<u32>) -> Result<(), NoMemory>
    ensures { OnOk result (copies.new.items ≡ copies.old.items ++ copies_among shapes.now (args_of (arg.now ∷ []))) }
{
    match arg {
        Arg::Plain(x) | Arg::Named(_, _, x) => add_copies(x, shapes, copies),
        Arg::Range(first, last) => {
            add_copies(first, shapes, copies)?;
            add_copies(last, shapes, copies)
        }
        Arg::Lambda(..) => Ok(()),
    }
}

/// Adds the stencils in statements.
#[cycle(statement_copies)]
#[tactic(auto, using(crate::proofs::CopyForms::statement_copies))]
pub fn add_copies_of(
    body: &[Stmt],
    shapes: &[Option<Shape>],
    copies: &mut Vec<u32>,
) -> Result<(), NoMemory>
    ensures { OnOk result (copies.new.items ≡ copies.old.items ++ copies_of shapes.now (block_of body.now)) }
{
    for stmt in body {
        add_copies_in(stmt, shapes, copies)?;
    }
    Ok(())
}

/// Adds the stencils in a statement.
#[cycle(statement_copies)]
#[tactic(auto, using(crate::proofs::CopyForms::statement_copies))]
fn add_copies_in(
    stmt: &Stmt,
    shapes: &[Option<Shape>],
    copies: &mut Vec<u32>,
) -> Result<(), NoMemory>
    ensures { OnOk result (copies.new.items ≡ copies.old.items ++ copies_of shapes.now (block_of (stmt.now ∷ []))) }
{
    match stmt {
        Stmt::Assign(_, _, x) | Stmt::Print(_, x) | Stmt::Export(_, x) => {
            add_copies(x, shapes, copies)
        }
        Stmt::If(_, test, first, second) => {
            add_copies(test, shapes, copies)?;
            add_copies_of(first.as_slice(), shapes, copies)?;
            add_copies_of(second.as_slice(), shapes, copies)
        }
        Stmt::While(_, test, turn) => {
            add_copies(test, shapes, copies)?;
            add_copies_of(turn.as_slice(), shapes, copies)
        }
    }
}
