// From the trees of a script to the statements that are built.

ghost use Rattle.std.specs.Prelude.{◌≡◌, ◌≤◌, ◌++◌, List, [], ◌∷◌, length, map, IfOk, IfErr, OnOk};
ghost use Rattle.std.specs.Option.{option_map, option_copied};
ghost use Rattle.hp_script.specs.Mirror.{tree_of, args_of, block_of};
ghost use Rattle.hp_meaning.specs.Forms.{number_of, variable_of, plain_call, is_add, dotted_sum, call_named, fill_call, sum_call, added_name, added_form, assigned_form, printed_form, assigns, is_assigned, reads_assigned, place_of, form_of_stmt, built, behind_lines, TellsLines, FindsLine, FindsNext, ReadsAssigned};
ghost use Rattle.hp_meaning.specs.declared.forms.FormError.TheVariants.{NoMemory};

use crate::args::{one_plain, two_plain};
use crate::line::{Line, Lines};
use hp_script::tree::{Arg, BinOp, Expr, Form, Script, Stmt};
use hp_word::name::{Name, copied_name};
use hp_word::place::Place;
use hp_word::sequence::Sequence;
use std::alloc::{AllocError, AllocFailed, Global};

/// Why the statements of a script are not told.
#[derive(Clone, Copy, PartialEq, Eq)]
pub enum FormError {
    /// The statement at this place is of no form that is built, or reads a name that nothing before it assigns.
    NotBuilt(Place),
    /// Memory was refused.
    NoMemory,
}

impl From<AllocError> for FormError {
    ghost from_gives = { λ _ e. e ≡ NoMemory };

    fn from(_error: AllocError) -> FormError {
        FormError::NoMemory
    }
}

impl From<hp_word::place::NoMemory> for FormError {
    ghost from_gives = { λ _ e. e ≡ NoMemory };

    fn from(_error: hp_word::place::NoMemory) -> FormError {
        FormError::NoMemory
    }
}

/// The value of an expression that is a number.
#[tactic(auto, unfolding(hp_script::specs::Mirror::tree_of, hp_script::specs::Mirror::form_of, crate::specs::Forms::number_of))]
fn number_in(x: &Expr) -> Option<i64>
    ensures { result ≡ number_of (tree_of x.now) }
{
    match x.form {
        Form::Number(value) => Some(value),
        _ => None,
    }
}

/// The name of an expression that is a variable.
#[tactic(auto, unfolding(hp_script::specs::Mirror::tree_of, hp_script::specs::Mirror::form_of, crate::specs::Forms::variable_of))]
fn variable_in(x: &Expr) -> Option<&Name>
    ensures { option_map (λ name. name.now.bytes) result ≡ variable_of (tree_of x.now) }
{
    match &x.form {
        Form::Name(name) => Some(name),
        _ => None,
    }
}

/// The function and the arguments of a call without a dot.
#[tactic(auto, using(crate::proofs::FormLemmas::tree_call), unfolding(hp_script::specs::Mirror::tree_of, hp_script::specs::Mirror::form_of, crate::specs::Forms::plain_call))]
fn call_in(x: &Expr) -> Option<(&Name, &[Arg])>
    ensures { option_map (λ c. (x.now.at, c.0.now.bytes, args_of c.1.now)) result ≡ plain_call (tree_of x.now) }
{
    match &x.form {
        Form::Call(function, false, args) => Some((function, args.as_slice())),
        _ => None,
    }
}

/// Whether an operator adds.
fn is_add(op: BinOp) -> bool
    ensures { result ≡ is_add op }
{
    matches!(op, BinOp::Add)
}

/// The operands of a sum of elements.
#[tactic(auto, using(crate::proofs::FormLemmas::tree_sum), unfolding(hp_script::specs::Mirror::tree_of, hp_script::specs::Mirror::form_of, crate::specs::Forms::dotted_sum))]
fn sum_in(x: &Expr) -> Option<(&Expr, &Expr)>
    ensures { option_map (λ s. (x.now.at, tree_of s.0.now, tree_of s.1.now)) result ≡ dotted_sum (tree_of x.now) }
{
    let Form::Binary(op, dotted, left, right) = &x.form else {
        return None;
    };
    if *dotted && is_add(*op) {
        Some((left.get(), right.get()))
    } else {
        None
    }
}

/// The arguments of a call of this function.
fn call_of<'a>(x: &'a Expr, function: &[u8]) -> Option<&'a [Arg]>
    ensures { option_map (λ args. (x.now.at, args_of args.now)) result ≡ call_named function.now (plain_call (tree_of x.now)) }
{
    let (name, args) = call_in(x)?;
    if name.bytes.as_slice() == function {
        Some(args)
    } else {
        None
    }
}

/// The numbers of `fill(NUMBER, NUMBER)`.
#[tactic(auto, using(crate::proofs::FormLemmas::found_some, crate::proofs::FormLemmas::found_none), unfolding(crate::specs::Forms::fill_call))]
fn fill_numbers(x: &Expr) -> Option<(i64, i64)>
    ensures { option_map (λ n. (x.now.at, n.0, n.1)) result ≡ fill_call (tree_of x.now) }
{
    let (value, count) = two_plain(call_of(x, b"fill".as_slice())?).ok()?;
    Some((number_in(value)?, number_in(count)?))
}

/// The name in `sum(NAME)`.
#[tactic(auto, using(crate::proofs::FormLemmas::found_some, crate::proofs::FormLemmas::found_none), unfolding(crate::specs::Forms::sum_call))]
fn summed(x: &Expr) -> Option<&Name>
    ensures { option_map (λ name. name.now.bytes) result ≡ sum_call (tree_of x.now) }
{
    variable_in(one_plain(call_of(x, b"sum".as_slice())?).ok()?)
}

/// The name and what is added to it, in a sum of elements.
#[tactic(auto, unfolding(crate::specs::Forms::added_name))]
fn added(x: &Expr) -> Option<(&Name, &Expr)>
    ensures { option_map (λ s. (x.now.at, s.0.now.bytes, tree_of s.1.now)) result ≡ added_name (tree_of x.now) }
{
    let (left, right) = sum_in(x)?;
    Some((variable_in(left)?, right))
}

/// A copy of a name.
fn copy_of(alloc: Global, name: &Name) -> Result<Name, FormError>
    ensures ok { IfOk result (λ copy. copy.bytes ≡ name.now.bytes) }
    ensures err { IfErr result (λ error. error ≡ NoMemory) }
{
    Ok(copied_name(alloc, name)?)
}

/// A statement that assigns a sum of elements, by its name, the place of the sign, and the parts of the sum.
#[tactic(auto, unfolding(crate::specs::Forms::added_form))]
fn sum_line(
    alloc: Global,
    name: &Name,
    at: Place,
    left: &Name,
    right: &Expr,
) -> Result<Option<Line>, FormError>
    ensures { FindsLine (added_form name.now.bytes (at, left.now.bytes, tree_of right.now)) result }
{
    if let Some(other) = variable_in(right) {
        let name = copy_of(alloc, name)?;
        let left = copy_of(alloc, left)?;
        let other = copy_of(alloc, other)?;
        return Ok(Some(Line::AddArrays(name, at, left, other)));
    }
    let Some(value) = number_in(right) else {
        return Ok(None);
    };
    let name = copy_of(alloc, name)?;
    let left = copy_of(alloc, left)?;
    Ok(Some(Line::AddNumber(name, at, left, value)))
}

/// A statement that assigns, by its name and what is assigned.
#[tactic(auto, unfolding(crate::specs::Forms::assigned_form))]
fn assigned_line(alloc: Global, name: &Name, x: &Expr) -> Result<Option<Line>, FormError>
    ensures { FindsLine (assigned_form name.now.bytes (tree_of x.now)) result }
{
    if let Some((value, count)) = fill_numbers(x) {
        let name = copy_of(alloc, name)?;
        return Ok(Some(Line::Fill(name, x.at, value, count)));
    }
    let Some((left, right)) = added(x) else {
        return Ok(None);
    };
    sum_line(alloc, name, x.at, left, right)
}

/// `println(sum(NAME))`, by what is printed.
#[tactic(auto, unfolding(crate::specs::Forms::printed_form))]
fn printed_line(alloc: Global, x: &Expr) -> Result<Option<Line>, FormError>
    ensures { FindsLine (printed_form (tree_of x.now)) result }
{
    let Some(name) = summed(x) else {
        return Ok(None);
    };
    Ok(Some(Line::PrintSum(copy_of(alloc, name)?)))
}

/// What a statement asks for, where it is of a form that is built.
#[tactic(auto, unfolding(crate::specs::Forms::form_of_stmt))]
fn line_of(alloc: Global, stmt: &Stmt) -> Result<Option<Line>, FormError>
    ensures { FindsLine (form_of_stmt stmt.now) result }
{
    match stmt {
        Stmt::Assign(_, name, x) => assigned_line(alloc, name, x),
        Stmt::Print(_, x) => printed_line(alloc, x),
        Stmt::Export(..) | Stmt::If(..) | Stmt::While(..) => Ok(None),
    }
}

/// The place of a statement.
fn place_of(stmt: &Stmt) -> Place
    ensures { result ≡ place_of stmt.now }
{
    match stmt {
        Stmt::Assign(at, ..)
        | Stmt::Print(at, _)
        | Stmt::Export(at, _)
        | Stmt::If(at, ..)
        | Stmt::While(at, ..) => *at,
    }
}

/// Whether a line assigns a name.
fn assigns(name: &[u8], line: &Line) -> bool
    ensures { result ≡ assigns name.now line.now }
{
    match line {
        Line::Fill(other, ..) => name == other.bytes.as_slice(),
        Line::PrintSum(_) => false,
        Line::AddArrays(other, ..) => name == other.bytes.as_slice(),
        Line::AddNumber(other, ..) => name == other.bytes.as_slice(),
    }
}

/// Whether one of the lines assigns a name.
#[tactic(auto, unfolding(crate::specs::Forms::is_assigned))]
fn is_assigned(lines: &[Line], name: &Name) -> bool
    ensures { result ≡ is_assigned lines.now name.now.bytes }
{
    lines
        .iter()
        .any(|line| assigns(name.bytes.as_slice(), line))
}

/// Whether lines assign what another reads.
fn reads_assigned(before: &[Line], line: &Line) -> bool
    ensures { result ≡ reads_assigned before.now line.now }
{
    match line {
        Line::Fill(..) => true,
        Line::PrintSum(name) => is_assigned(before, name),
        Line::AddArrays(_, _, left, right) => {
            is_assigned(before, left) && is_assigned(before, right)
        }
        Line::AddNumber(_, _, left, _) => is_assigned(before, left),
    }
}

/// The next line behind others, where a statement is one that reads only what they assign.
fn next_line(alloc: Global, before: &[Line], stmt: &Stmt) -> Result<Line, FormError>
    ensures { FindsNext before.now stmt.now result }
{
    match line_of(alloc, stmt)? {
        Some(line) if reads_assigned(before, &line) => Ok(line),
        _ => Err(FormError::NotBuilt(place_of(stmt))),
    }
}

/// The statements of a script by what they ask for.
///
/// Errors: `NotBuilt` with the place of the first statement that is of no form that is built, or that reads a name
/// which nothing before it assigns; `NoMemory` where memory was refused.
pub fn lines_of(alloc: Global, script: &Script) -> Result<Lines, FormError>
    ensures told { TellsLines (built [] (block_of script.now.body)) result }
    ensures reads { IfOk result (λ lines. ReadsAssigned [] lines.list) }
    ensures few { IfOk result (λ lines. length lines.list ≤ 65536) }
{
    let mut list = Sequence::new(alloc);
    for stmt in script.body.as_slice() {
        match next_line(alloc, list.as_slice(), stmt) {
            Ok(line) => list.push(line)?,
            Err(error) => return Err(error),
        }
    }
    Ok(Lines { list })
}
