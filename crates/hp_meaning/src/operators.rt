// Operators and the functions of two numbers, on words and element by element.

ghost use Rattle.std.specs.Prelude.{◌≡◌, IfOk};
ghost use Rattle.hp_meaning.specs.HeldValues.{looked, cells_in};
ghost use Rattle.hp_meaning.specs.Outcomes.{Tells};
ghost use Rattle.hp_meaning.specs.WordRules.{calc_of, scalar_calc, operands_of, result_of, is_lazy, decides, decision, calculated_at, pairwise, with_right, with_left, spread, elementwise, unary_value, plain_value, dotted_value, scalar_value, negated, calculated_words};

use crate::held::{Look, Operand};
use crate::loops::{looped, operation};
use crate::seen::Stop;
use crate::value::{Kind, Value};
use hp_script::function::ScalarFunction;
use hp_script::tree::{BinOp, UnOp};
use hp_word::elem::Elem;
use hp_word::place::{NoMemory, Place, TrapKind};
use hp_word::sequence::Sequence;
use hp_word::word::{CalcOp, calc, is_true, neg, word_of};
use std::alloc::Global;

/// The operation of an operator.
pub fn calc_of(op: BinOp) -> CalcOp
    ensures { result ≡ calc_of op }
{
    match op {
        BinOp::Or | BinOp::BitOr => CalcOp::Or,
        BinOp::And | BinOp::BitAnd => CalcOp::And,
        BinOp::Eq => CalcOp::Eq,
        BinOp::Ne => CalcOp::Ne,
        BinOp::Lt => CalcOp::Lt,
        BinOp::Le => CalcOp::Le,
        BinOp::Gt => CalcOp::Gt,
        BinOp::Ge => CalcOp::Ge,
        BinOp::Add => CalcOp::Add,
        BinOp::Sub => CalcOp::Sub,
        BinOp::Mul => CalcOp::Mul,
    }
}

pub fn scalar_calc(function: ScalarFunction) -> CalcOp
    ensures { result ≡ scalar_calc function }
{
    match function {
        ScalarFunction::Div => CalcOp::Div,
        ScalarFunction::Rem => CalcOp::Rem,
        ScalarFunction::Min => CalcOp::Min,
        ScalarFunction::Max => CalcOp::Max,
    }
}

/// What an operator is for.
pub fn operands_of(op: BinOp) -> Kind
    ensures { result ≡ operands_of op }
{
    match op {
        BinOp::Or | BinOp::And | BinOp::BitOr | BinOp::BitAnd => Kind::Truth,
        _ => Kind::Number,
    }
}

/// What an operator gives.
pub fn result_of(op: BinOp) -> Kind
    ensures { result ≡ result_of op }
{
    match op {
        BinOp::Add | BinOp::Sub | BinOp::Mul => Kind::Number,
        _ => Kind::Truth,
    }
}

/// Whether the second side of an operator is evaluated only where the first does not decide.
pub fn is_lazy(op: BinOp) -> bool
    ensures { result ≡ is_lazy op }
{
    matches!(op, BinOp::Or | BinOp::And)
}

/// Whether the first side decides `&&` or `||`.
pub fn decides(op: BinOp, x: i64) -> bool
    ensures { result ≡ decides op x }
{
    match op {
        BinOp::Or => is_true(x),
        _ => !is_true(x),
    }
}

/// What `&&` or `||` is where the first side decides it.
pub fn decision(op: BinOp) -> i64
    ensures { result ≡ decision op }
{
    match op {
        BinOp::Or => word_of(true),
        _ => word_of(false),
    }
}

/// An operation on two words.
#[tactic(auto, unfolding(crate::specs::Outcomes::halted))]
pub fn calculated(at: Place, op: CalcOp, x: i64, y: i64) -> Result<i64, Stop>
    ensures { Tells (calculated_at at op x y) result }
{
    match calc(op, x, y) {
        Ok(z) => Ok(z),
        Err(kind) => Err(Stop::trap(at, kind)),
    }
}

/// Two arrays, element by element from the first on.
#[tactic(auto, unfolding(crate::specs::Outcomes::halted, crate::specs::WordRules::pairwise))]
fn pairwise(
    alloc: Global,
    at: Place,
    op: CalcOp,
    xs: &[i64],
    ys: &[i64],
) -> Result<Sequence<i64>, Stop>
    ensures { Tells (pairwise at op xs.now ys.now) result }
{
    if xs.len() != ys.len() {
        return Err(Stop::trap(at, TrapKind::Mismatch));
    }
    let elem = operation(alloc, at, op, Elem::Input(0), Elem::Input(1))?;
    looped(alloc, elem, &[xs, ys], xs.len())
}

/// An array and a word.
#[tactic(auto, unfolding(crate::specs::Outcomes::halted))]
fn with_right(
    alloc: Global,
    at: Place,
    op: CalcOp,
    xs: &[i64],
    y: i64,
) -> Result<Sequence<i64>, Stop>
    ensures { Tells (with_right at op xs.now y) result }
{
    let elem = operation(alloc, at, op, Elem::Input(0), Elem::Number(y))?;
    looped(alloc, elem, &[xs], xs.len())
}

/// A word and an array.
#[tactic(auto, unfolding(crate::specs::Outcomes::halted))]
fn with_left(
    alloc: Global,
    at: Place,
    op: CalcOp,
    x: i64,
    ys: &[i64],
) -> Result<Sequence<i64>, Stop>
    ensures { Tells (with_left at op x ys.now) result }
{
    let elem = operation(alloc, at, op, Elem::Number(x), Elem::Input(0))?;
    looped(alloc, elem, &[ys], ys.len())
}

/// Element by element, where at least one of the two is an array.
#[tactic(auto, unfolding(crate::specs::WordRules::spread, crate::specs::Outcomes::halted))]
fn spread(
    alloc: Global,
    at: Place,
    op: CalcOp,
    a: Operand,
    b: Operand,
) -> Result<Sequence<i64>, Stop>
    ensures { Tells (spread at op (cells_in a.entry) (cells_in b.entry)) result }
{
    match a {
        Operand::Many(xs) => match b {
            Operand::Many(ys) => pairwise(alloc, at, op, xs, ys),
            Operand::One(y) => with_right(alloc, at, op, xs, y),
        },
        Operand::One(x) => match b {
            Operand::Many(ys) => with_left(alloc, at, op, x, ys),
            Operand::One(_) => Err(Stop::Wrong),
        },
    }
}

/// Element by element, of two values of the kind `operands`.
#[tactic(auto, unfolding(crate::specs::Outcomes::halted, crate::specs::WordRules::elementwise))]
fn elementwise(
    alloc: Global,
    at: Place,
    op: CalcOp,
    operands: Kind,
    result_kind: Kind,
    a: Look,
    b: Look,
) -> Result<Value, Stop>
    ensures { Tells (elementwise at op operands result_kind (looked a.entry) (looked b.entry)) result }
{
    let x = a.cells(operands)?;
    let y = b.cells(operands)?;
    let made = spread(alloc, at, op, x, y)?;
    Ok(Value::List(result_kind, made))
}

/// The words of the opposite truth values; such an operation never traps.
fn negated(alloc: Global, xs: &[i64]) -> Result<Sequence<i64>, NoMemory>
    ensures { IfOk result (λ made. made ≡ negated xs.now) }
{
    let nowhere = Place { line: 0, col: 0 };
    let elem = operation(alloc, nowhere, CalcOp::Not, Elem::Input(0), Elem::Number(0))?;
    match looped(alloc, elem, &[xs], xs.len()) {
        Ok(made) => Ok(made),
        Err(_) => Err(NoMemory),
    }
}

/// `-a`, `!a` or `.!a`.
#[tactic(auto, unfolding(crate::specs::WordRules::unary_value, crate::specs::Outcomes::halted))]
pub fn unary_value(alloc: Global, op: UnOp, dotted: bool, a: Look) -> Result<Value, Stop>
    ensures { Tells (unary_value op dotted (looked a.entry)) result }
{
    match op {
        UnOp::Neg => {
            if dotted {
                return Err(Stop::Wrong);
            }
            let x = a.word_of(Kind::Number)?;
            Ok(Value::Word(Kind::Number, neg(x)))
        }
        UnOp::Not => {
            if dotted {
                let xs = a.list_of(Kind::Truth)?;
                return Ok(Value::List(Kind::Truth, negated(alloc, xs)?));
            }
            let x = a.word_of(Kind::Truth)?;
            Ok(Value::Word(Kind::Truth, word_of(!is_true(x))))
        }
    }
}

/// An operation on two words of the kind `operands`.
#[tactic(auto, unfolding(crate::specs::Outcomes::halted, crate::specs::WordRules::calculated_words))]
fn two_words(
    at: Place,
    op: CalcOp,
    operands: Kind,
    result_kind: Kind,
    a: Look,
    b: Look,
) -> Result<Value, Stop>
    ensures { Tells (calculated_words at op operands result_kind (looked a.entry) (looked b.entry)) result }
{
    let x = a.word_of(operands)?;
    let y = b.word_of(operands)?;
    let z = calculated(at, op, x, y)?;
    Ok(Value::Word(result_kind, z))
}

/// An operator on two words, but for `&&` and `||`.
#[tactic(auto, unfolding(crate::specs::Outcomes::halted, crate::specs::WordRules::plain_value))]
pub fn plain_value(at: Place, op: BinOp, a: Look, b: Look) -> Result<Value, Stop>
    ensures { Tells (plain_value at op (looked a.entry) (looked b.entry)) result }
{
    if is_lazy(op) {
        return Err(Stop::Wrong);
    }
    two_words(at, calc_of(op), operands_of(op), result_of(op), a, b)
}

/// A dotted operator on arrays, or on an array and a word.
#[tactic(auto, unfolding(crate::specs::Outcomes::halted, crate::specs::WordRules::dotted_value))]
pub fn dotted_value(alloc: Global, at: Place, op: BinOp, a: Look, b: Look) -> Result<Value, Stop>
    ensures { Tells (dotted_value at op (looked a.entry) (looked b.entry)) result }
{
    if is_lazy(op) {
        return Err(Stop::Wrong);
    }
    elementwise(alloc, at, calc_of(op), operands_of(op), result_of(op), a, b)
}

/// `div`, `rem`, `min` or `max`.
#[tactic(auto, unfolding(crate::specs::WordRules::scalar_value))]
pub fn scalar_value(
    alloc: Global,
    function: ScalarFunction,
    dotted: bool,
    at: Place,
    a: Look,
    b: Look,
) -> Result<Value, Stop>
    ensures { Tells (scalar_value function dotted at (looked a.entry) (looked b.entry)) result }
{
    let op = scalar_calc(function);
    if dotted {
        elementwise(alloc, at, op, Kind::Number, Kind::Number, a, b)
    } else {
        two_words(at, op, Kind::Number, Kind::Number, a, b)
    }
}
