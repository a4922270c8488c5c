// What an expression can name: the variables, and in the mask of a filter the columns of its frame.

ghost use Rattle.std.specs.Prelude.{◌≡◌, find, bytes_eq, IfOk};
ghost use Rattle.std.specs.Option.{option_copied};
ghost use Rattle.hp_meaning.specs.HeldValues.{Finds};
ghost use Rattle.hp_meaning.specs.Scopes.{value_named};

use crate::columns::copied_columns;
use crate::numbers::Numbers;
use crate::seen::Stop;
use crate::value::{Column, Value, Var};
use crate::variables::Variables;
use hp_word::matrix::Matrix;
use hp_word::order::Order;
use hp_word::place::NoMemory;
use hp_word::sequence::Sequence;
use hp_word::table::Table;
use std::alloc::Global;

/// What a run is given: the tables, the numbers of the calls that read them, the orders of joins and aggregates, and the
/// numbers of the variables of each expression.
#[derive(Clone, Copy)]
pub struct Supply<'a> {
    pub alloc: Global,
    pub tables: &'a [Table],
    pub reads: &'a [u32],
    pub orders: &'a [Order],
    pub numbers: &'a [Numbers],
}

/// The variables, and the frame of the innermost filter in whose mask an expression stands.
#[derive(Clone, Copy)]
pub struct Scope<'a> {
    pub vars: &'a Variables,
    pub frame: Option<&'a [Column]>,
}

/// The first variable with this name.
fn var_named<'a>(name: &[u8], vars: &'a [Var]) -> Option<&'a Var>
    ensures { option_copied result ≡ find (λ v. bytes_eq v.name.bytes name.now) vars.now }
{
    vars.iter().find(|var| var.name.bytes.as_slice() == name)
}

/// The value of the variable with this name.
pub fn value_named<'a>(name: &[u8], vars: &'a [Var]) -> Result<&'a Value, Stop>
    ensures { Finds (λ a. a.now) (value_named name.now vars.now) result }
{
    match var_named(name, vars) {
        Some(var) => Ok(&var.value),
        None => Err(Stop::Wrong),
    }
}

/// A copy of a matrix.
fn copied_matrix(alloc: Global, matrix: &Matrix) -> Result<Matrix, NoMemory>
    ensures { IfOk result (λ made. made ≡ matrix.now) }
{
    let mut columns = Sequence::new(alloc);
    for column in matrix.columns.as_slice() {
        columns.push(Sequence::from_slice(alloc, column.as_slice())?)?;
    }
    let rows = matrix.rows;
    Ok(Matrix { rows, columns })
}

/// A copy of a value.
pub fn copied(alloc: Global, value: &Value) -> Result<Value, NoMemory>
    ensures { IfOk result (λ made. made ≡ value.now) }
{
    match value {
        Value::Word(kind, x) => Ok(Value::Word(*kind, *x)),
        Value::List(kind, xs) => {
            let made = Sequence::from_slice(alloc, xs.as_slice())?;
            Ok(Value::List(*kind, made))
        }
        Value::Matrix(matrix) => Ok(Value::Matrix(copied_matrix(alloc, matrix)?)),
        Value::Frame(columns) => Ok(Value::Frame(copied_columns(alloc, columns.as_slice())?)),
    }
}
