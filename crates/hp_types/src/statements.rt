// Statements: tested in the order of the text, with the variables that they assign.

ghost use Rattle.std.specs.Prelude.{◌≡◌, Some, [], ◌∷◌, OnOk};
ghost use Rattle.std.specs.Option.{option_map};
ghost use Rattle.hp_script.specs.Breaks.{is_frame};
ghost use Rattle.hp_script.specs.Checked.{assigned_in, same_names, same_shape, keeps_shape, is_printed};
ghost use Rattle.hp_script.specs.Mirror.{tree_of, block_of, assign, done};
ghost use Rattle.hp_script.specs.Scope.{Scope as SpecScope};
ghost use Rattle.hp_types.specs.Statements.{Begins, IsAt, TellsValue, TellsTest, TellsBlock, TellsBranches, TellsLoop};

use crate::error::{CheckError, demand};
use crate::expression::expression;
use crate::found::Found;
use crate::names::Assigned;
use crate::scope::Scope;
use crate::variables::Variables;
use hp_script::columns::ColumnName;
use hp_script::rule::Rule;
use hp_script::tree::{Expr, Stmt};
use hp_script::typed::Shape;
use hp_word::name::Name;
use hp_word::place::Place;
use std::alloc::Global;

/// Whether two lists of names are equal.
fn same_names(a: &[ColumnName], b: &[ColumnName]) -> bool
    ensures { result ≡ same_names a.now b.now }
{
    if a.len() != b.len() {
        return false;
    }
    for i in 0..a.len() {
        if a[i].name().bytes.as_slice() != b[i].name().bytes.as_slice() {
            return false;
        }
    }
    true
}

/// Whether two types are one.
fn same_shape(a: &Shape, b: &Shape) -> bool
    ensures { result ≡ same_shape a.now b.now }
{
    match (a, b) {
        (Shape::Int, Shape::Int)
        | (Shape::Bool, Shape::Bool)
        | (Shape::Ints, Shape::Ints)
        | (Shape::Bools, Shape::Bools)
        | (Shape::Matrix, Shape::Matrix) => true,
        (Shape::Frame(a), Shape::Frame(b)) => same_names(a.as_slice(), b.as_slice()),
        _ => false,
    }
}

/// Whether a value of this type keeps the type of the first assignment, if there was one.
fn keeps_shape(first: Option<&Shape>, shape: &Shape) -> bool
    ensures { result ≡ keeps_shape (option_map (λ known. known.now) first.entry) (Some shape.now) }
{
    match first {
        Some(first) => same_shape(first, shape),
        None => true,
    }
}

/// Whether a value of this type is printed.
fn is_printed(shape: &Shape) -> bool
    ensures { result ≡ is_printed (Some shape.now) }
{
    matches!(shape, Shape::Int | Shape::Bool | Shape::Ints | Shape::Bools)
}

/// Whether a value of this type is a frame.
fn is_frame(shape: &Shape) -> bool
    ensures { result ≡ is_frame (Some shape.now) }
{
    matches!(shape, Shape::Frame(_))
}

/// Tests an expression of a statement, in a script that assigns these names, and gives its type.
fn value(
    alloc: Global,
    assigned: &Assigned<'_>,
    variables: &Variables,
    found: &mut Found,
    x: &Expr,
) -> Result<Shape, CheckError>
    ensures { (s : SpecScope) → IsAt s assigned.now variables.now → TellsValue s (tree_of x.now) found.old found.new result }
{
    let scope = Scope::new(alloc, assigned, variables);
    expression(alloc, &scope, found, x)
}

/// Tests a script of these statements.
pub fn test_script(
    alloc: Global,
    body: &[Stmt],
    variables: &mut Variables,
    found: &mut Found,
) -> Result<(), CheckError>
    ensures { (s : SpecScope) → IsAt s (assigned_in (block_of body.now)) variables.old → TellsBlock s (assigned_in (block_of body.now)) (block_of body.now) found.old variables.new found.new result }
{
    let assigned = Assigned::of(alloc, body)?;
    statements(alloc, &assigned, variables, found, body)
}

/// Tests statements in a script that assigns these names.
#[cycle(statements)]
fn statements(
    alloc: Global,
    assigned: &Assigned<'_>,
    variables: &mut Variables,
    found: &mut Found,
    block: &[Stmt],
) -> Result<(), CheckError>
    ensures told { (s : SpecScope) → IsAt s assigned.now variables.old → TellsBlock s assigned.now (block_of block.now) found.old variables.new found.new result }
    ensures kept { OnOk result (Begins variables.old.sure variables.new.sure) }
{
    for stmt in block {
        statement(alloc, assigned, variables, found, stmt)?;
    }
    Ok(())
}

/// Tests a statement.
#[cycle(statements)]
fn statement(
    alloc: Global,
    assigned: &Assigned<'_>,
    variables: &mut Variables,
    found: &mut Found,
    stmt: &Stmt,
) -> Result<(), CheckError>
    ensures told { (s : SpecScope) → IsAt s assigned.now variables.old → TellsBlock s assigned.now (block_of (stmt.now ∷ [])) found.old variables.new found.new result }
    ensures kept { OnOk result (Begins variables.old.sure variables.new.sure) }
{
    match stmt {
        Stmt::Assign(at, name, x) => assignment(alloc, assigned, variables, found, *at, name, x),
        Stmt::Print(at, x) => {
            let shape = value(alloc, assigned, variables, found, x)?;
            demand(is_printed(&shape), *at, Rule::WrongType)
        }
        Stmt::Export(at, x) => {
            let shape = value(alloc, assigned, variables, found, x)?;
            demand(is_frame(&shape), *at, Rule::WrongType)
        }
        Stmt::If(at, test, first, second) => {
            condition(alloc, assigned, variables, found, *at, test)?;
            branches(
                alloc,
                assigned,
                variables,
                found,
                first.as_slice(),
                second.as_slice(),
            )
        }
        Stmt::While(at, test, inner) => {
            condition(alloc, assigned, variables, found, *at, test)?;
            repeated(alloc, assigned, variables, found, inner.as_slice())
        }
    }
}

/// Tests an assignment at a place.
fn assignment(
    alloc: Global,
    assigned: &Assigned<'_>,
    variables: &mut Variables,
    found: &mut Found,
    at: Place,
    name: &Name,
    x: &Expr,
) -> Result<(), CheckError>
    ensures told { (s : SpecScope) → IsAt s assigned.now variables.old → TellsBlock s assigned.now (assign at name.now.bytes (tree_of x.now) done) found.old variables.new found.new result }
    ensures kept { OnOk result (Begins variables.old.sure variables.new.sure) }
{
    let shape = value(alloc, assigned, variables, found, x)?;
    let first = variables.list.shape_of(name.bytes.as_slice());
    demand(keeps_shape(first, &shape), at, Rule::TypeChanged)?;
    variables.assign(alloc, name.bytes.as_slice(), shape)?;
    Ok(())
}

/// Tests the condition of a statement at a place.
fn condition(
    alloc: Global,
    assigned: &Assigned<'_>,
    variables: &Variables,
    found: &mut Found,
    at: Place,
    test: &Expr,
) -> Result<(), CheckError>
    ensures { (s : SpecScope) → IsAt s assigned.now variables.now → TellsTest s at (tree_of test.now) found.old found.new result }
{
    let shape = value(alloc, assigned, variables, found, test)?;
    demand(matches!(shape, Shape::Bool), at, Rule::WrongType)
}

/// Tests the branches of an `if`.
#[cycle(statements)]
fn branches(
    alloc: Global,
    assigned: &Assigned<'_>,
    variables: &mut Variables,
    found: &mut Found,
    first: &[Stmt],
    second: &[Stmt],
) -> Result<(), CheckError>
    ensures told { (s : SpecScope) → IsAt s assigned.now variables.old → TellsBranches s assigned.now (block_of first.now) (block_of second.now) found.old variables.new found.new result }
    ensures kept { OnOk result (Begins variables.old.sure variables.new.sure) }
{
    let before = variables.sure.len();
    statements(alloc, assigned, variables, found, first)?;
    let by_first = variables.sure.split_off(before)?;
    statements(alloc, assigned, variables, found, second)?;
    variables.sure.keep_common(alloc, before, &by_first)?;
    Ok(())
}

/// Tests the body of a `while`, which may be passed over.
#[cycle(statements)]
fn repeated(
    alloc: Global,
    assigned: &Assigned<'_>,
    variables: &mut Variables,
    found: &mut Found,
    inner: &[Stmt],
) -> Result<(), CheckError>
    ensures told { (s : SpecScope) → IsAt s assigned.now variables.old → TellsLoop s assigned.now (block_of inner.now) found.old variables.new found.new result }
    ensures kept { OnOk result (Begins variables.old.sure variables.new.sure) }
{
    let before = variables.sure.len();
    statements(alloc, assigned, variables, found, inner)?;
    variables.sure.truncate(before);
    Ok(())
}
