// What a lambda makes of elements: scalar forms alone. A body of which every part is of a type that its form is for is
// a loop; any other is gone through for each element, as far as the first part that is not.

ghost use Rattle.std.specs.Prelude.{◌≡◌, ◌∷◌, [], pos, ◌+ℤ◌, neg_ℤ, false, true, IfOk, IfSome};
ghost use Rattle.std.specs.Option.{option_map};
ghost use Rattle.hp_word.specs.LoopRules.{cell_at};
ghost use Rattle.hp_word.specs.Words.{wrap};
ghost use Rattle.hp_script.specs.Mirror.{tree_of, args_of};
ghost use Rattle.hp_meaning.specs.Elements.{IsElement, inside_at};
ghost use Rattle.hp_meaning.specs.HeldValues.{looked, inside_in, sight_in};
ghost use Rattle.hp_meaning.specs.LambdaRules.{Element, Around, inside, name_value, is_variable, literal, distance, near_value, operator_value, call_value, scalar, scalars, kind_of, kind_in, word_in, number_in, mapped_words, mapped, stencil_words, stencilled, lazy_value, argument_value, parameter_value};
ghost use Rattle.hp_meaning.specs.Operands.{is_kind};
ghost use Rattle.hp_meaning.specs.Outcomes.{Gives, Tells, also};
ghost use Rattle.hp_meaning.specs.Scopes.{value_named};

use crate::elements::{Binding, Role, Typed, element};
use crate::held::{Look, is_kind, look_at};
use crate::loops::looped;
use crate::operators::{
    decides, decision, is_lazy, plain_value, result_of, scalar_value, unary_value,
};
use crate::scope::value_named;
use crate::seen::Stop;
use crate::value::{Kind, Value, Var};
use hp_script::function::{Function, function_of};
use hp_script::tree::{Arg, BinOp, Expr, Form, UnOp};
use hp_word::place::{NoMemory, Place};
use hp_word::sequence::Sequence;
use hp_word::word::{neg, word_of};
use std::alloc::Global;

/// What the parameter stands for: in `map` the kind and the word of an element, in `stencil` the array and the
/// element's place from 0.
#[derive(Clone, Copy)]
pub enum Sight<'a> {
    Element(Kind, i64),
    Around(&'a [i64], usize),
}

/// What a body sees: the parameter, what it stands for, and the variables, of which it hides one of its name.
#[derive(Clone, Copy)]
pub struct Inside<'a> {
    pub parameter: &'a [u8],
    pub sight: Sight<'a>,
    pub vars: &'a [Var],
}

/// A word as a value.
fn word(kind: Kind, x: i64) -> Value
    ensures { result ≡ Value.Word kind x }
{
    Value::Word(kind, x)
}

/// An array's element so many places from one, and 0 outside.
fn cell_near(xs: &[i64], place: usize, distance: i64) -> i64
    ensures { result ≡ cell_at xs.now (pos place +ℤ distance) }
{
    if distance < 0 {
        let back = distance.unsigned_abs() as usize;
        if back > place || place - back >= xs.len() {
            return 0;
        }
        return xs[place - back];
    }
    let further = distance as usize;
    if place >= xs.len() || further >= xs.len() - place {
        return 0;
    }
    xs[place + further]
}

/// A word of what the parameter stands for.
#[tactic(auto, unfolding(crate::specs::Outcomes::halted))]
fn parameter_value(sight: Sight) -> Result<Value, Stop>
    ensures { Tells (parameter_value (sight_in sight.entry)) result }
{
    match sight {
        Sight::Element(kind, x) => Ok(word(kind, x)),
        Sight::Around(..) => Err(Stop::Wrong),
    }
}

/// The parameter, or a variable that is a number or a truth value.
#[tactic(auto, unfolding(crate::specs::LambdaRules::name_value, crate::specs::Outcomes::halted))]
fn name_value(name: &[u8], inside: Inside) -> Result<Value, Stop>
    ensures { Tells (name_value name.now (inside_in inside.entry)) result }
{
    if name == inside.parameter {
        return parameter_value(inside.sight);
    }
    let found = value_named(name, inside.vars)?;
    let (kind, x) = look_at(found).word()?;
    Ok(word(kind, x))
}

/// Whether an expression is the variable with this name.
#[tactic(auto, unfolding(hp_script::specs::Mirror::form_of, hp_script::specs::Mirror::tree_of))]
pub fn is_variable(name: &[u8], x: &Expr) -> bool
    ensures { result ≡ is_variable name.now (tree_of x.now) }
{
    match &x.form {
        Form::Name(other) => other.bytes.as_slice() == name,
        _ => false,
    }
}

/// The value of an expression that is a number.
#[tactic(auto, unfolding(hp_script::specs::Mirror::form_of, hp_script::specs::Mirror::tree_of))]
fn literal(x: &Expr) -> Option<i64>
    ensures { result ≡ literal (tree_of x.now) }
{
    match x.form {
        Form::Number(value) => Some(value),
        _ => None,
    }
}

/// The negated number, where there is one.
fn negated(value: Option<i64>) -> Option<i64>
    ensures { result ≡ option_map (λ z. wrap (neg_ℤ z)) value }
{
    match value {
        Some(z) => Some(neg(z)),
        None => None,
    }
}

/// The distance of `p[d]`: a number, or `-` and a number.
#[tactic(auto, unfolding(hp_script::specs::Mirror::form_of, hp_script::specs::Mirror::tree_of))]
pub fn distance(x: &Expr) -> Option<i64>
    ensures { result ≡ distance (tree_of x.now) }
{
    match &x.form {
        Form::Number(value) => Some(*value),
        Form::Unary(op, dotted, operand) => {
            if *dotted {
                return None;
            }
            match op {
                UnOp::Neg => negated(literal(operand.get())),
                UnOp::Not => None,
            }
        }
        _ => None,
    }
}

/// `p[d]` in a stencil.
#[tactic(auto, unfolding(crate::specs::LambdaRules::near_value, crate::specs::Outcomes::halted, hp_script::specs::Mirror::form_of, hp_script::specs::Mirror::tree_of))]
fn near_value(x: &Expr, d: &Expr, inside: Inside) -> Result<Value, Stop>
    ensures { Tells (near_value (tree_of x.now) (tree_of d.now) (inside_in inside.entry)) result }
{
    if !is_variable(inside.parameter, x) {
        return Err(Stop::Wrong);
    }
    match inside.sight {
        Sight::Element(..) => Err(Stop::Wrong),
        Sight::Around(xs, place) => match distance(d) {
            Some(by) => Ok(word(Kind::Number, cell_near(xs, place, by))),
            None => Err(Stop::Wrong),
        },
    }
}

/// The value of a body.
#[cycle(scalars)]
#[tactic(auto, unfolding(crate::specs::LambdaRules::scalar, crate::specs::LambdaRules::operator_value, crate::specs::Outcomes::halted, hp_script::specs::Mirror::form_of, hp_script::specs::Mirror::tree_of))]
pub fn scalar(alloc: Global, x: &Expr, inside: Inside) -> Result<Value, Stop>
    ensures { Tells (scalar (tree_of x.now) (inside_in inside.entry)) result }
{
    match &x.form {
        Form::Number(value) => Ok(word(Kind::Number, *value)),
        Form::Truth(holds) => Ok(word(Kind::Truth, word_of(*holds))),
        Form::Name(name) => name_value(name.bytes.as_slice(), inside),
        Form::Unary(op, dotted, operand) => {
            let a = scalar(alloc, operand.get(), inside)?;
            unary_value(alloc, *op, *dotted, look_at(&a))
        }
        Form::Binary(op, dotted, left, right) => {
            if *dotted {
                return Err(Stop::Wrong);
            }
            let a = scalar(alloc, left.get(), inside)?;
            operator_value(alloc, x.at, *op, look_at(&a), right.get(), inside)
        }
        Form::Index(indexed, index) => near_value(indexed.get(), index.get(), inside),
        Form::Call(function, dotted, args) => {
            let called = function_of(function.bytes.as_slice(), *dotted);
            call_value(alloc, called, *dotted, x.at, args.as_slice(), inside)
        }
        Form::Text(_) | Form::Column(_) | Form::Field(..) => Err(Stop::Wrong),
    }
}

/// An operator without a dot, behind its first side.
#[cycle(scalars)]
fn operator_value(
    alloc: Global,
    at: Place,
    op: BinOp,
    a: Look,
    right: &Expr,
    inside: Inside,
) -> Result<Value, Stop>
    ensures { Tells (operator_value at op false (Gives (looked a.entry)) (scalar (tree_of right.now) (inside_in inside.entry))) result }
{
    if is_lazy(op) {
        return lazy_value(alloc, op, a, right, inside);
    }
    let b = scalar(alloc, right, inside)?;
    plain_value(at, op, a, look_at(&b))
}

/// `&&` or `||` behind its first side: the second is evaluated only where that does not decide.
#[cycle(scalars)]
#[tactic(auto, unfolding(crate::specs::LambdaRules::lazy_value, crate::specs::Outcomes::halted))]
fn lazy_value(
    alloc: Global,
    op: BinOp,
    a: Look,
    right: &Expr,
    inside: Inside,
) -> Result<Value, Stop>
    ensures { Tells (lazy_value op (Gives (looked a.entry)) (scalar (tree_of right.now) (inside_in inside.entry))) result }
{
    let x = a.word_of(Kind::Truth)?;
    if decides(op, x) {
        return Ok(word(Kind::Truth, decision(op)));
    }
    let b = scalar(alloc, right, inside)?;
    let y = look_at(&b).word_of(Kind::Truth)?;
    Ok(word(Kind::Truth, y))
}

/// A call of `div`, `rem`, `min` or `max`.
#[cycle(scalars)]
#[tactic(auto, unfolding(crate::specs::LambdaRules::call_value, crate::specs::LambdaRules::scalars, crate::specs::LambdaRules::argument_value, crate::specs::Outcomes::halted, hp_script::specs::Mirror::args_of, hp_script::specs::Mirror::form_of, hp_script::specs::Mirror::tree_of))]
fn call_value(
    alloc: Global,
    function: Option<Function>,
    dotted: bool,
    at: Place,
    args: &[Arg],
    inside: Inside,
) -> Result<Value, Stop>
    ensures { Tells (call_value function dotted at (scalars (args_of args.now) (inside_in inside.entry))) result }
{
    let Some(Function::Scalar(called)) = function else {
        return Err(Stop::Wrong);
    };
    if dotted {
        return Err(Stop::Wrong);
    }
    if args.len() != 2 {
        return Err(Stop::Wrong);
    }
    let a = argument(alloc, &args[0], inside)?;
    let b = argument(alloc, &args[1], inside)?;
    scalar_value(alloc, called, false, at, look_at(&a), look_at(&b))
}

/// The value of an argument.
#[cycle(scalars)]
#[tactic(auto, unfolding(crate::specs::LambdaRules::argument_value, crate::specs::LambdaRules::scalars, crate::specs::Outcomes::halted, hp_script::specs::Mirror::args_of, hp_script::specs::Mirror::form_of, hp_script::specs::Mirror::tree_of))]
fn argument(alloc: Global, arg: &Arg, inside: Inside) -> Result<Value, Stop>
    ensures { Tells (argument_value (args_of (arg.now ∷ [])) (inside_in inside.entry)) result }
{
    match arg {
        Arg::Plain(x) => scalar(alloc, x, inside),
        _ => Err(Stop::Wrong),
    }
}

/// The kind of a variable that is a number or a truth value.
#[tactic(auto, unfolding(crate::specs::Scopes::value_named))]
fn kind_named(name: &[u8], vars: &[Var]) -> Kind
    ensures { result ≡ kind_in (value_named name.now vars.now) }
{
    match value_named(name, vars) {
        Ok(found) => match look_at(found).word() {
            Ok((kind, _)) => kind,
            Err(_) => Kind::Number,
        },
        Err(_) => Kind::Number,
    }
}

/// What the body of a `map` gives, by its form.
#[tactic(auto, unfolding(crate::specs::LambdaRules::kind_of, hp_script::specs::Mirror::form_of, hp_script::specs::Mirror::tree_of))]
fn kind_of(x: &Expr, parameter: &[u8], element: Kind, vars: &[Var]) -> Kind
    ensures { result ≡ kind_of (tree_of x.now) parameter.now element vars.now }
{
    match &x.form {
        Form::Truth(_) => Kind::Truth,
        Form::Name(name) => {
            if name.bytes.as_slice() == parameter {
                element
            } else {
                kind_named(name.bytes.as_slice(), vars)
            }
        }
        Form::Unary(op, ..) => match op {
            UnOp::Neg => Kind::Number,
            UnOp::Not => Kind::Truth,
        },
        Form::Binary(op, ..) => result_of(*op),
        _ => Kind::Number,
    }
}

/// What the body of a `map` makes of an element.
fn mapped_word<'x>(
    alloc: Global,
    vars: &'x [Var],
    parameter: &'x [u8],
    body: &Expr,
    kind: Kind,
    x: i64,
) -> Result<i64, Stop>
    ensures { Tells (also (scalar (tree_of body.now) (inside parameter.now (Element kind x) vars.now)) word_in) result }
{
    let inside = Inside {
        parameter,
        sight: Sight::Element(kind, x),
        vars,
    };
    let value = scalar(alloc, body, inside)?;
    let (_, y) = look_at(&value).word()?;
    Ok(y)
}

/// The same, element after element, of a body that is no element of a loop.
fn mapped_in_turn(
    alloc: Global,
    vars: &[Var],
    parameter: &[u8],
    body: &Expr,
    kind: Kind,
    xs: &[i64],
) -> Result<Sequence<i64>, Stop>
    ensures { Tells (mapped_words vars.now parameter.now (tree_of body.now) kind xs.now) result }
{
    let mut made = Sequence::new(alloc);
    for x in xs {
        let y = mapped_word(alloc, vars, parameter, body, kind, *x)?;
        made.push(y)?;
    }
    Ok(made)
}

/// What the body makes of each element, from the first on.
fn mapped_words(
    alloc: Global,
    vars: &[Var],
    parameter: &[u8],
    body: &Expr,
    kind: Kind,
    xs: &[i64],
) -> Result<Sequence<i64>, Stop>
    ensures { Tells (mapped_words vars.now parameter.now (tree_of body.now) kind xs.now) result }
{
    let role = Role::Each(kind);
    let binding = Binding {
        parameter,
        role,
        vars,
    };
    match element(alloc, body, binding)? {
        Some(made) => looped(alloc, made.elem, &[xs], xs.len()),
        None => mapped_in_turn(alloc, vars, parameter, body, kind, xs),
    }
}

/// `map(p -> e, a)`
#[tactic(auto, unfolding(crate::specs::LambdaRules::mapped, crate::specs::Outcomes::halted, hp_script::specs::Mirror::form_of, hp_script::specs::Mirror::tree_of))]
pub fn mapped(
    alloc: Global,
    vars: &[Var],
    parameter: &[u8],
    body: &Expr,
    a: Look,
) -> Result<Value, Stop>
    ensures { Tells (mapped vars.now parameter.now (tree_of body.now) (looked a.entry)) result }
{
    let (kind, xs) = a.list()?;
    let made = mapped_words(alloc, vars, parameter, body, kind, xs)?;
    Ok(Value::List(kind_of(body, parameter, kind, vars), made))
}

/// What the body of a `stencil` makes of the element at a place from 0 and its neighbours.
fn stencil_word<'x>(
    alloc: Global,
    vars: &'x [Var],
    parameter: &'x [u8],
    body: &Expr,
    xs: &'x [i64],
    place: usize,
) -> Result<i64, Stop>
    ensures { Tells (also (scalar (tree_of body.now) (inside parameter.now (Around xs.now place) vars.now)) number_in) result }
{
    let inside = Inside {
        parameter,
        sight: Sight::Around(xs, place),
        vars,
    };
    let value = scalar(alloc, body, inside)?;
    look_at(&value).word_of(Kind::Number)
}

/// The same, element after element, of a body that is no number of a loop.
fn stencil_in_turn(
    alloc: Global,
    vars: &[Var],
    parameter: &[u8],
    body: &Expr,
    xs: &[i64],
) -> Result<Sequence<i64>, Stop>
    ensures { Tells (stencil_words vars.now parameter.now (tree_of body.now) xs.now) result }
{
    let mut made = Sequence::new(alloc);
    for i in 0..xs.len() {
        let y = stencil_word(alloc, vars, parameter, body, xs, i)?;
        made.push(y)?;
    }
    Ok(made)
}

/// A body as the number that it is at each place.
fn number_element(alloc: Global, body: &Expr, binding: Binding) -> Result<Option<Typed>, NoMemory>
    ensures element { IfOk result (λ found. IfSome found (IsElement (λ xs i. scalar (tree_of body.now) (inside_at binding.entry xs i)))) }
    ensures kind { IfOk result (λ found. IfSome found (λ made. true ≡ is_kind Kind.Number made.kind)) }
{
    let Some(made) = element(alloc, body, binding)? else {
        return Ok(None);
    };
    if is_kind(Kind::Number, made.kind) {
        Ok(Some(made))
    } else {
        Ok(None)
    }
}

/// What the body makes of each element and its neighbours, from the first on.
fn stencil_words(
    alloc: Global,
    vars: &[Var],
    parameter: &[u8],
    body: &Expr,
    xs: &[i64],
) -> Result<Sequence<i64>, Stop>
    ensures { Tells (stencil_words vars.now parameter.now (tree_of body.now) xs.now) result }
{
    let role = Role::Around;
    let binding = Binding {
        parameter,
        role,
        vars,
    };
    match number_element(alloc, body, binding)? {
        Some(made) => looped(alloc, made.elem, &[xs], xs.len()),
        None => stencil_in_turn(alloc, vars, parameter, body, xs),
    }
}

/// `stencil(p -> e, a)`
#[tactic(auto, unfolding(crate::specs::LambdaRules::stencilled, crate::specs::Outcomes::halted, hp_script::specs::Mirror::form_of, hp_script::specs::Mirror::tree_of))]
pub fn stencilled(
    alloc: Global,
    vars: &[Var],
    parameter: &[u8],
    body: &Expr,
    a: Look,
) -> Result<Value, Stop>
    ensures { Tells (stencilled vars.now parameter.now (tree_of body.now) (looked a.entry)) result }
{
    let xs = a.list_of(Kind::Number)?;
    let made = stencil_words(alloc, vars, parameter, body, xs)?;
    Ok(Value::List(Kind::Number, made))
}
