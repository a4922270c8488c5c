// What a loop computes at one place of its arrays.

ghost use Rattle.std.specs.Prelude.{◌≡◌};
ghost use Rattle.hp_word.specs.Words.{calculated};
ghost use Rattle.hp_word.specs.Elem.{trapped_at};

use crate::place::{Place, Trap};
use crate::word::{CalcOp, calc};
use sqlite_items::Boxed;

/// A number that a loop computes at a place.
#[derive(Debug, Drop)]
pub enum Elem {
    /// A number as it stands.
    Number(i64),
    /// A scalar word, by its number.
    Word(u32),
    /// The element of an input at this place.
    Input(u32),
    /// The element of a halo so many places further, or 0 outside its array.
    Near(u32, i32),
    /// What an earlier let of the same loop computed at this place.
    Earlier(u32),
    /// An operation, which may trap at its place in the script.
    Calc(CalcOp, Place, Boxed<Elem>, Boxed<Elem>),
    /// 0 where the first part is 0, and else the second part, which is looked at in that case alone.
    Both(Boxed<Elem>, Boxed<Elem>),
    /// 1 where the first part is not 0, and else the second part, which is looked at in that case alone.
    Either(Boxed<Elem>, Boxed<Elem>),
}

/// What an operation gives of two words, with its place in a trap.
pub fn calc_at(op: CalcOp, at: Place, a: i64, b: i64) -> Result<i64, Trap>
    ensures { result ≡ trapped_at at (calculated op a b) }
{
    match calc(op, a, b) {
        Ok(value) => Ok(value),
        Err(kind) => Err(Trap { at, kind }),
    }
}
