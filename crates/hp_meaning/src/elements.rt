// The body of a lambda as the element of a loop, which is made once for all places of the lambda's array.

ghost use Rattle.std.specs.Prelude.{◌≡◌, ◌∷◌, [], ℕ, ℤ, List, IfOk, IfSome, false};
ghost use Rattle.hp_script.specs.Mirror.{tree_of, args_of};
ghost use Rattle.hp_meaning.specs.Elements.{IsElement, IsGuard, inside_at, stands_for, unary_calc};
ghost use Rattle.hp_meaning.specs.LambdaRules.{argument_value, call_value, lazy_value, name_value, near_value, operator_value, parameter_value, scalar, scalars, unary_kind};
ghost use Rattle.hp_meaning.specs.Operands.{as_word};
ghost use Rattle.hp_meaning.specs.Outcomes.{Answer, Gives, also, given};
ghost use Rattle.hp_meaning.specs.WordRules.{calculated_words, unary_value};

use crate::held::is_kind;
use crate::lambdas::{distance, is_variable};
use crate::loops::operation;
use crate::operators::{calc_of, is_lazy, operands_of, result_of, scalar_calc};
use crate::scope::value_named;
use crate::value::{Kind, Value, Var};
use hp_script::function::{Function, function_of};
use hp_script::tree::{Arg, BinOp, Expr, Form, UnOp};
use hp_word::elem::Elem;
use hp_word::place::{NoMemory, Place};
use hp_word::word::{CalcOp, word_of};
use sqlite_items::Boxed;
use std::alloc::Global;

/// What the parameter stands for at each place of an array.
#[derive(Clone, Copy)]
pub enum Role {
    /// The array's element there, which is of this kind.
    Each(Kind),
    /// The array round the place.
    Around,
}

/// The parameter of a lambda, what it stands for, and the variables, of which it hides one of its name.
#[derive(Clone, Copy)]
pub struct Binding<'a> {
    pub parameter: &'a [u8],
    pub role: Role,
    pub vars: &'a [Var],
}

/// An element that has words of this kind.
#[derive(Drop)]
pub struct Typed {
    pub kind: Kind,
    pub elem: Elem,
}

/// One word at all places.
#[tactic(auto, using(crate::proofs::ElementLemmas::is_constant))]
fn constant(kind: Kind, x: i64) -> Typed
    ensures { IsElement (λ xs i. Gives (Value.Word kind x)) result }
{
    let elem = Elem::Number(x);
    Typed { kind, elem }
}

/// The parameter as a word.
#[tactic(auto, using(crate::proofs::ElementLemmas::is_each))]
fn parameter(role: Role) -> Option<Typed>
    ensures { IfSome result (IsElement (λ xs i. parameter_value (stands_for role xs i))) }
{
    match role {
        Role::Each(kind) => {
            let elem = Elem::Input(0);
            Some(Typed { kind, elem })
        }
        Role::Around => None,
    }
}

/// The value of a variable as a word.
#[tactic(auto, using(crate::proofs::ElementLemmas::is_word))]
fn variable(value: &Value) -> Option<Typed>
    ensures { IfSome result (IsElement (λ xs i. given (as_word value.now) (λ w. Gives (Value.Word w.0 w.1)))) }
{
    match value {
        Value::Word(kind, x) => Some(constant(*kind, *x)),
        _ => None,
    }
}

/// The parameter, or a variable that is a number or a truth value.
#[tactic(auto, using(crate::proofs::ElementLemmas::named_parameter, crate::proofs::ElementLemmas::named_variable))]
fn name_element(name: &[u8], binding: Binding) -> Option<Typed>
    ensures { IfSome result (IsElement (λ xs i. name_value name.now (inside_at binding.entry xs i))) }
{
    if name == binding.parameter {
        return parameter(binding.role);
    }
    match value_named(name, binding.vars) {
        Ok(found) => variable(found),
        Err(_) => None,
    }
}

/// The element so many places further; the rules of the language allow 64.
fn near_by(by: i64) -> Option<Elem>
    ensures { IfSome result (λ made. made ≡ Elem.Near 0 by) }
{
    if by < -64 || by > 64 {
        return None;
    }
    Some(Elem::Near(0, by as i32))
}

/// `p[d]` in a stencil.
#[tactic(auto, using(crate::proofs::ElementLemmas::is_near))]
fn near_element(x: &Expr, d: &Expr, binding: Binding) -> Option<Typed>
    ensures { IfSome result (IsElement (λ xs i. near_value (tree_of x.now) (tree_of d.now) (inside_at binding.entry xs i))) }
{
    if !is_variable(binding.parameter, x) {
        return None;
    }
    let Role::Around = binding.role else {
        return None;
    };
    let Some(by) = distance(d) else { return None };
    let Some(elem) = near_by(by) else { return None };
    Some(Typed {
        kind: Kind::Number,
        elem,
    })
}

/// An operation on two words of the kind `operands`.
#[tactic(auto, using(crate::proofs::ElementLemmas::is_calculation))]
fn calculation(
    alloc: Global,
    at: Place,
    op: CalcOp,
    operands: Kind,
    result_kind: Kind,
    a: Typed,
    b: Typed,
) -> Result<Option<Typed>, NoMemory>
    ensures { (f g : List ℤ → ℕ → Answer Value) → IsElement f a → IsElement g b → IfOk result (λ found. IfSome found (IsElement (λ xs i. also (f xs i) (λ v. also (g xs i) (calculated_words at op operands result_kind v))))) }
{
    if !is_kind(operands, a.kind) {
        return Ok(None);
    }
    if !is_kind(operands, b.kind) {
        return Ok(None);
    }
    let elem = operation(alloc, at, op, a.elem, b.elem)?;
    Ok(Some(Typed {
        kind: result_kind,
        elem,
    }))
}

/// `&&` or `||` as an element.
fn guard(alloc: Global, op: BinOp, a: Elem, b: Elem) -> Result<Option<Elem>, NoMemory>
    ensures { IfOk result (λ found. IfSome found (IsGuard op a b)) }
{
    match op {
        BinOp::Or => Ok(Some(Elem::Either(Boxed::new(alloc, a)?, Boxed::new(alloc, b)?))),
        BinOp::And => Ok(Some(Elem::Both(Boxed::new(alloc, a)?, Boxed::new(alloc, b)?))),
        _ => Ok(None),
    }
}

/// `&&` or `||` of two truth values.
#[tactic(auto, using(crate::proofs::ElementLemmas::is_guard))]
fn guarded(alloc: Global, op: BinOp, a: Typed, b: Typed) -> Result<Option<Typed>, NoMemory>
    ensures { (f g : List ℤ → ℕ → Answer Value) → IsElement f a → IsElement g b → IfOk result (λ found. IfSome found (IsElement (λ xs i. lazy_value op (f xs i) (g xs i)))) }
{
    if !is_kind(Kind::Truth, a.kind) {
        return Ok(None);
    }
    if !is_kind(Kind::Truth, b.kind) {
        return Ok(None);
    }
    let Some(elem) = guard(alloc, op, a.elem, b.elem)? else {
        return Ok(None);
    };
    Ok(Some(Typed {
        kind: Kind::Truth,
        elem,
    }))
}

/// An operator of two words.
#[tactic(auto, using(crate::proofs::ElementLemmas::lazily, crate::proofs::ElementLemmas::strictly))]
fn operator(
    alloc: Global,
    at: Place,
    op: BinOp,
    a: Typed,
    b: Typed,
) -> Result<Option<Typed>, NoMemory>
    ensures { (f g : List ℤ → ℕ → Answer Value) → IsElement f a → IsElement g b → IfOk result (λ found. IfSome found (IsElement (λ xs i. operator_value at op false (f xs i) (g xs i)))) }
{
    if is_lazy(op) {
        return guarded(alloc, op, a, b);
    }
    calculation(alloc, at, calc_of(op), operands_of(op), result_of(op), a, b)
}

/// The operation of `-` and `!`.
fn unary_calc(op: UnOp) -> CalcOp
    ensures { result ≡ unary_calc op }
{
    match op {
        UnOp::Neg => CalcOp::Neg,
        UnOp::Not => CalcOp::Not,
    }
}

/// What `-` and `!` are for, and what they give.
fn unary_kind(op: UnOp) -> Kind
    ensures { result ≡ unary_kind op }
{
    match op {
        UnOp::Neg => Kind::Number,
        UnOp::Not => Kind::Truth,
    }
}

/// `-` or `!` of a word.
#[tactic(auto, using(crate::proofs::ElementLemmas::is_opposite))]
fn opposite(
    alloc: Global,
    at: Place,
    op: UnOp,
    dotted: bool,
    a: Typed,
) -> Result<Option<Typed>, NoMemory>
    ensures { (f : List ℤ → ℕ → Answer Value) → IsElement f a → IfOk result (λ found. IfSome found (IsElement (λ xs i. also (f xs i) (unary_value op dotted)))) }
{
    if dotted {
        return Ok(None);
    }
    let kind = unary_kind(op);
    if !is_kind(kind, a.kind) {
        return Ok(None);
    }
    let elem = operation(alloc, at, unary_calc(op), a.elem, Elem::Number(0))?;
    Ok(Some(Typed { kind, elem }))
}

/// A body as an element, where each of its parts is of a type that its form is for.
#[cycle(elements)]
pub fn element(alloc: Global, x: &Expr, binding: Binding) -> Result<Option<Typed>, NoMemory>
    ensures { IfOk result (λ found. IfSome found (IsElement (λ xs i. scalar (tree_of x.now) (inside_at binding.entry xs i)))) }
{
    match &x.form {
        Form::Number(value) => Ok(Some(constant(Kind::Number, *value))),
        Form::Truth(holds) => Ok(Some(constant(Kind::Truth, word_of(*holds)))),
        Form::Name(name) => Ok(name_element(name.bytes.as_slice(), binding)),
        Form::Unary(op, dotted, operand) => {
            let Some(a) = element(alloc, operand.get(), binding)? else {
                return Ok(None);
            };
            opposite(alloc, x.at, *op, *dotted, a)
        }
        Form::Binary(op, dotted, left, right) => {
            if *dotted {
                return Ok(None);
            }
            let Some(a) = element(alloc, left.get(), binding)? else {
                return Ok(None);
            };
            let Some(b) = element(alloc, right.get(), binding)? else {
                return Ok(None);
            };
            operator(alloc, x.at, *op, a, b)
        }
        Form::Index(indexed, index) => Ok(near_element(indexed.get(), index.get(), binding)),
        Form::Call(function, dotted, args) => {
            let called = function_of(function.bytes.as_slice(), *dotted);
            call(alloc, called, *dotted, x.at, args.as_slice(), binding)
        }
        Form::Text(_) | Form::Column(_) | Form::Field(..) => Ok(None),
    }
}

/// A call of `div`, `rem`, `min` or `max`.
#[cycle(elements)]
fn call(
    alloc: Global,
    function: Option<Function>,
    dotted: bool,
    at: Place,
    args: &[Arg],
    binding: Binding,
) -> Result<Option<Typed>, NoMemory>
    ensures { IfOk result (λ found. IfSome found (IsElement (λ xs i. call_value function dotted at (scalars (args_of args.now) (inside_at binding.entry xs i))))) }
{
    let Some(Function::Scalar(called)) = function else {
        return Ok(None);
    };
    if dotted {
        return Ok(None);
    }
    if args.len() != 2 {
        return Ok(None);
    }
    let Some(a) = argument(alloc, &args[0], binding)? else {
        return Ok(None);
    };
    let Some(b) = argument(alloc, &args[1], binding)? else {
        return Ok(None);
    };
    calculation(
        alloc,
        at,
        scalar_calc(called),
        Kind::Number,
        Kind::Number,
        a,
        b,
    )
}

/// The value of an argument.
#[cycle(elements)]
fn argument(alloc: Global, arg: &Arg, binding: Binding) -> Result<Option<Typed>, NoMemory>
    ensures { IfOk result (λ found. IfSome found (IsElement (λ xs i. argument_value (args_of (arg.now ∷ [])) (inside_at binding.entry xs i)))) }
{
    match arg {
        Arg::Plain(x) => element(alloc, x, binding),
        _ => Ok(None),
    }
}
