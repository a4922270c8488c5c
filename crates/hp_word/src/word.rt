// Arithmetic on 64-bit words, which wraps.

ghost use Rattle.std.specs.Prelude.{◌≡◌, ◌+ℤ◌, ◌-ℤ◌, ◌*ℤ◌, neg_ℤ};
ghost use Rattle.hp_word.specs.Words.{wrap, is_true, truth, divided, remainder, calculated};

use crate::place::TrapKind;

/// An operation on words.
#[derive(Clone, Copy, Debug, PartialEq, Eq)]
pub enum CalcOp {
    Add,
    Sub,
    Mul,
    Div,
    Rem,
    Min,
    Max,
    Eq,
    Ne,
    Lt,
    Le,
    Gt,
    Ge,
    And,
    Or,
    Not,
    Neg,
}

/// The sum, wrapped to 64 bits.
#[tactic(auto, using(std::proofs::lemmas::Int::wraps))]
pub fn add(a: i64, b: i64) -> i64
    ensures { result ≡ wrap (a +ℤ b) }
{
    a.wrapping_add(b)
}

/// The difference, wrapped to 64 bits.
#[tactic(auto, using(std::proofs::lemmas::Int::wraps))]
pub fn sub(a: i64, b: i64) -> i64
    ensures { result ≡ wrap (a -ℤ b) }
{
    a.wrapping_sub(b)
}

/// The product, wrapped to 64 bits.
pub fn mul(a: i64, b: i64) -> i64
    ensures { result ≡ wrap (a *ℤ b) }
{
    a.wrapping_mul(b)
}

/// The negated number, wrapped to 64 bits.
#[tactic(auto, using(std::proofs::lemmas::Int::wraps))]
pub fn neg(a: i64) -> i64
    ensures { result ≡ wrap (neg_ℤ a) }
{
    a.wrapping_neg()
}

/// The quotient, rounded toward zero. `Divide` where `b` is 0, or `a` the least number and `b` -1.
pub fn div(a: i64, b: i64) -> Result<i64, TrapKind>
    ensures { result ≡ divided a b }
{
    if b == 0 || a == i64::MIN && b == -1 {
        return Err(TrapKind::Divide);
    }
    Ok(a / b)
}

/// The remainder, with the sign of `a`; by -1 it is 0. `Divide` where `b` is 0.
pub fn rem(a: i64, b: i64) -> Result<i64, TrapKind>
    ensures { result ≡ remainder a b }
{
    if b == 0 {
        return Err(TrapKind::Divide);
    }
    Ok(a.wrapping_rem(b))
}

/// Whether a word is true, which each is but 0.
pub fn is_true(word: i64) -> bool
    ensures { result ≡ is_true word }
{
    word != 0
}

/// 1 for a true test, else 0.
pub fn word_of(test: bool) -> i64
    ensures { result ≡ truth test }
{
    if test { 1 } else { 0 }
}

/// What an operation gives of two words; `Not` and `Neg` look at `a` alone, and a test gives 1 or 0.
/// `Divide` where `div` or `rem` gives it.
pub fn calc(op: CalcOp, a: i64, b: i64) -> Result<i64, TrapKind>
    ensures { result ≡ calculated op a b }
{
    match op {
        CalcOp::Add => Ok(add(a, b)),
        CalcOp::Sub => Ok(sub(a, b)),
        CalcOp::Mul => Ok(mul(a, b)),
        CalcOp::Div => div(a, b),
        CalcOp::Rem => rem(a, b),
        CalcOp::Min => Ok(a.min(b)),
        CalcOp::Max => Ok(a.max(b)),
        CalcOp::Eq => Ok(word_of(a == b)),
        CalcOp::Ne => Ok(word_of(a != b)),
        CalcOp::Lt => Ok(word_of(a < b)),
        CalcOp::Le => Ok(word_of(a <= b)),
        CalcOp::Gt => Ok(word_of(a > b)),
        CalcOp::Ge => Ok(word_of(a >= b)),
        CalcOp::And => Ok(word_of(a != 0 && b != 0)),
        CalcOp::Or => Ok(word_of(a != 0 || b != 0)),
        CalcOp::Not => Ok(word_of(a == 0)),
        CalcOp::Neg => Ok(neg(a)),
    }
}
