// Values that the evaluator holds: a variable, a table's or a frame's column is lent, and what is made is owned.

ghost use Rattle.std.specs.Prelude.{◌≡◌, ℤ, List};
ghost use Rattle.hp_meaning.specs.HeldValues.{looked, held_value, made_of, cells_in, Finds};
ghost use Rattle.hp_meaning.specs.Operands.{is_kind, as_word, as_list, as_matrix, as_frame, as_word_of, as_list_of, as_cells};

use crate::seen::Stop;
use crate::value::{Column, Kind, Value};
use hp_word::matrix::Matrix;
use hp_word::sequence::Sequence;

/// The value of an expression.
#[derive(Drop)]
pub enum Held<'a> {
    /// The value of a variable.
    Lent(&'a Value),
    /// A column of a frame.
    Column(&'a Sequence<i64>),
    Made(Value),
}

/// A value that is only looked at.
#[derive(Clone, Copy)]
pub enum Look<'a> {
    Word(Kind, i64),
    List(Kind, &'a [i64]),
    Matrix(&'a Matrix),
    Frame(&'a [Column]),
}

/// One word, or the words of an array.
#[derive(Clone, Copy)]
pub enum Operand<'a> {
    One(i64),
    Many(&'a [i64]),
}

/// What was made, as what is held.
pub fn made<'a>(made: Result<Value, Stop>) -> Result<Held<'a>, Stop>
    ensures { made_of result ≡ made }
{
    match made {
        Ok(value) => Ok(Held::Made(value)),
        Err(stop) => Err(stop),
    }
}

/// Whether two kinds are one.
pub fn is_kind(wanted: Kind, kind: Kind) -> bool
    ensures { result ≡ is_kind wanted kind }
{
    match wanted {
        Kind::Number => matches!(kind, Kind::Number),
        Kind::Truth => matches!(kind, Kind::Truth),
    }
}

/// A look at a value.
pub fn look_at(value: &Value) -> Look<'_>
    ensures { looked result ≡ value.now }
{
    match value {
        Value::Word(kind, x) => Look::Word(*kind, *x),
        Value::List(kind, xs) => Look::List(*kind, xs.as_slice()),
        Value::Matrix(matrix) => Look::Matrix(matrix),
        Value::Frame(columns) => Look::Frame(columns.as_slice()),
    }
}

impl Held<'_> {
    /// A look at the value.
    pub fn look(&self) -> Look<'_>
        ensures { looked result ≡ held_value self.now }
    {
        match self {
            Held::Lent(value) => look_at(value),
            Held::Column(cells) => Look::List(Kind::Number, cells.as_slice()),
            Held::Made(value) => look_at(value),
        }
    }
}

impl<'a> Look<'a> {
    /// A word of any kind.
    pub fn word(self) -> Result<(Kind, i64), Stop>
        ensures { Finds (λ w. w) (as_word (looked self.entry)) result }
    {
        match self {
            Look::Word(kind, x) => Ok((kind, x)),
            _ => Err(Stop::Wrong),
        }
    }

    /// An array of any kind.
    pub fn list(self) -> Result<(Kind, &'a [i64]), Stop>
        ensures { Finds (λ l. (l.0, l.1.now)) (as_list (looked self.entry)) result }
    {
        match self {
            Look::List(kind, xs) => Ok((kind, xs)),
            _ => Err(Stop::Wrong),
        }
    }

    /// A word of this kind.
    pub fn word_of(self, wanted: Kind) -> Result<i64, Stop>
        ensures { Finds (λ x. x) (as_word_of wanted (looked self.entry)) result }
    {
        match self {
            Look::Word(kind, x) => {
                if is_kind(wanted, kind) {
                    Ok(x)
                } else {
                    Err(Stop::Wrong)
                }
            }
            _ => Err(Stop::Wrong),
        }
    }

    /// An array of this kind.
    pub fn list_of(self, wanted: Kind) -> Result<&'a [i64], Stop>
        ensures { Finds (λ xs. xs.now) (as_list_of wanted (looked self.entry)) result }
    {
        match self {
            Look::List(kind, xs) => {
                if is_kind(wanted, kind) {
                    Ok(xs)
                } else {
                    Err(Stop::Wrong)
                }
            }
            _ => Err(Stop::Wrong),
        }
    }

    /// A word or an array of this kind.
    pub fn cells(self, wanted: Kind) -> Result<Operand<'a>, Stop>
        ensures { Finds cells_in (as_cells wanted (looked self.entry)) result }
    {
        match self {
            Look::Word(kind, x) => {
                if is_kind(wanted, kind) {
                    Ok(Operand::One(x))
                } else {
                    Err(Stop::Wrong)
                }
            }
            Look::List(kind, xs) => {
                if is_kind(wanted, kind) {
                    Ok(Operand::Many(xs))
                } else {
                    Err(Stop::Wrong)
                }
            }
            _ => Err(Stop::Wrong),
        }
    }

    /// A matrix.
    pub fn matrix(self) -> Result<&'a Matrix, Stop>
        ensures { Finds (λ m. m.now) (as_matrix (looked self.entry)) result }
    {
        match self {
            Look::Matrix(matrix) => Ok(matrix),
            _ => Err(Stop::Wrong),
        }
    }

    /// The columns of a frame.
    pub fn frame(self) -> Result<&'a [Column], Stop>
        ensures { Finds (λ columns. columns.now) (as_frame (looked self.entry)) result }
    {
        match self {
            Look::Frame(columns) => Ok(columns),
            _ => Err(Stop::Wrong),
        }
    }
}
