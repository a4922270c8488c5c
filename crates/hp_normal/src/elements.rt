// Bodies of lambdas as elements of loops.

ghost use Rattle.std.specs.Prelude.{◌≡◌, ◌∷◌, [], ◌++◌, Some, pos, nat_abs, unwrap_or, if◌then◌else◌, bytes_eq, max, IfOk, OnOk, IfErr};
ghost use Rattle.hp_word.specs.declared.elem.Elem.TheViews.{Calc};
ghost use Rattle.hp_script.specs.Mirror.{tree_of, args_of};
ghost use Rattle.hp_word.specs.declared.elem.Elem.TheVariants.{Near, Input, Word};
ghost use Rattle.hp_meaning.specs.LambdaRules.{distance};
ghost use Rattle.hp_flat.specs.Homes.{word_named};
ghost use Rattle.hp_flat.specs.Elements.{unary_calc, unary_elem, binary_elem, call_elem, elem_of, elems_of, reach_of, reach_among};

use crate::homes::Homes;
use hp_meaning::lambdas::distance;
use hp_meaning::operators::{calc_of, scalar_calc};
use hp_script::function::{Function, function_of};
use hp_script::tree::{Arg, BinOp, Expr, Form, UnOp};
use hp_word::elem::Elem;
use hp_word::place::{NoMemory, Place};
use hp_word::word::{CalcOp, word_of};
use sqlite_items::Boxed;
use std::alloc::Global;

/// The operation of an operator with one operand.
pub fn unary_calc(op: UnOp) -> CalcOp
    ensures { result ≡ unary_calc op }
{
    match op {
        UnOp::Neg => CalcOp::Neg,
        UnOp::Not => CalcOp::Not,
    }
}

/// An operation on two elements.
pub fn calc_elem(alloc: Global, op: CalcOp, at: Place, a: Elem, b: Elem) -> Result<Elem, NoMemory>
    ensures { IfOk result (λ made. made ≡ Calc op at a b) }
{
    Ok(Elem::Calc(op, at, Boxed::new(alloc, a)?, Boxed::new(alloc, b)?))
}

/// An operator with one operand.
pub fn unary_elem(alloc: Global, at: Place, op: UnOp, a: Elem) -> Result<Elem, NoMemory>
    ensures { IfOk result (λ made. made ≡ unary_elem at op a) }
{
    calc_elem(alloc, unary_calc(op), at, a, Elem::Number(0))
}

/// An operator with two operands.
pub fn binary_elem(alloc: Global, at: Place, op: BinOp, a: Elem, b: Elem) -> Result<Elem, NoMemory>
    ensures { IfOk result (λ made. made ≡ binary_elem at op a b) }
{
    match op {
        BinOp::And => Ok(Elem::Both(Boxed::new(alloc, a)?, Boxed::new(alloc, b)?)),
        BinOp::Or => Ok(Elem::Either(Boxed::new(alloc, a)?, Boxed::new(alloc, b)?)),
        _ => calc_elem(alloc, calc_of(op), at, a, b),
    }
}

/// A call of a function of two numbers; 0 stands for what no body has.
fn call_elem(
    alloc: Global,
    at: Place,
    function: Option<Function>,
    parts: Vec<Elem>,
) -> Result<Elem, NoMemory>
    ensures { IfOk result (λ made. made ≡ call_elem at function parts.items) }
{
    let Some(Function::Scalar(scalar)) = function else {
        return Ok(Elem::Number(0));
    };
    let mut parts = parts;
    if parts.len() != 2 {
        return Ok(Elem::Number(0));
    }
    let second = parts.pop();
    let first = parts.pop();
    match (first, second) {
        (Some(a), Some(b)) => calc_elem(alloc, scalar_calc(scalar), at, a, b),
        _ => Ok(Elem::Number(0)),
    }
}

/// The parameter, or the word of a variable.
fn named_elem(homes: &Homes<'_>, parameter: &[u8], name: &[u8]) -> Result<Elem, NoMemory>
    ensures { IfOk result (λ made. made ≡ (if bytes_eq name.now parameter.now then Input 0 else Word (word_named homes.now name.now))) }
{
    if name == parameter {
        Ok(Elem::Input(0))
    } else {
        Ok(Elem::Word(homes.word_named(name)?))
    }
}

/// The distance of `p[d]`; 0 where it is none.
pub fn place_distance(x: &Expr) -> i64
    ensures { result ≡ unwrap_or (distance (tree_of x.now)) (pos 0) }
{
    match distance(x) {
        Some(by) => by,
        None => 0,
    }
}

/// `p[d]`
fn near_elem(x: &Expr) -> Result<Elem, NoMemory>
    ensures { IfOk result (λ made. made ≡ Near 0 (unwrap_or (distance (tree_of x.now)) (pos 0))) }
{
    match i32::try_from(place_distance(x)) {
        Ok(by) => Ok(Elem::Near(0, by)),
        Err(_) => Err(NoMemory),
    }
}

/// The element of a body, by its parameter.
#[cycle(elements)]
#[tactic(auto, using(crate::proofs::ElementForms::element_forms))]
pub fn elem_of(homes: &Homes<'_>, parameter: &[u8], x: &Expr) -> Result<Elem, NoMemory>
    ensures { IfOk result (λ made. made ≡ elem_of homes.now parameter.now (tree_of x.now)) }
{
    match &x.form {
        Form::Number(value) => Ok(Elem::Number(*value)),
        Form::Truth(holds) => Ok(Elem::Number(word_of(*holds))),
        Form::Name(name) => named_elem(homes, parameter, name.bytes.as_slice()),
        Form::Unary(op, _, operand) => {
            let a = elem_of(homes, parameter, operand.get())?;
            unary_elem(homes.alloc(), x.at, *op, a)
        }
        Form::Binary(op, _, left, right) => {
            let a = elem_of(homes, parameter, left.get())?;
            let b = elem_of(homes, parameter, right.get())?;
            binary_elem(homes.alloc(), x.at, *op, a, b)
        }
        Form::Index(_, place) => near_elem(place.get()),
        Form::Call(function, dotted, args) => {
            let parts = elems_of(homes, parameter, args.as_slice())?;
            let function = function_of(function.bytes.as_slice(), *dotted);
            call_elem(homes.alloc(), x.at, function, parts)
        }
        Form::Text(_) | Form::Column(_) | Form::Field(..) => Ok(Elem::Number(0)),
    }
}

/// The elements of the arguments of a call.
#[cycle(elements)]
#[tactic(auto, using(crate::proofs::ElementForms::argument_forms))]
fn elems_of(homes: &Homes<'_>, parameter: &[u8], args: &[Arg]) -> Result<Vec<Elem>, NoMemory>
    ensures { IfOk result (λ made. made.items ≡ elems_of homes.now parameter.now (args_of args.now)) }
{
    let mut made = Vec::new(homes.alloc());
    for arg in args {
        add_elem(&mut made, homes, parameter, arg)?;
    }
    Ok(made)
}

/// Adds the element of an argument, where it is a plain one.
#[cycle(elements)]
#[tactic(auto, using(crate::proofs::ElementForms::argument_forms))]
fn add_elem(
    made: &mut Vec<Elem>,
    homes: &Homes<'_>,
    parameter: &[u8],
    arg: &Arg,
) -> Result<(), NoMemory>
    ensures { OnOk result (made.new.items ≡ made.old.items ++ elems_of homes.now parameter.now (args_of (arg.now ∷ []))) }
{
    match arg {
        Arg::Plain(x) => {
            made.push(elem_of(homes, parameter, x)?)?;
            Ok(())
        }
        Arg::Range(..) | Arg::Lambda(..) | Arg::Named(..) => Ok(()),
    }
}
