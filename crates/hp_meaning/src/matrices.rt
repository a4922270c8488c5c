// The constructs of matrices.

ghost use Rattle.std.specs.Prelude.{◌≡◌, ◌*◌, ◌≤◌, ◌↔◌, pos, map, IfOk, IsFalse, slice_index_or};
ghost use Rattle.hp_word.specs.Lengths.{longest};
ghost use Rattle.hp_word.specs.MatrixRules.{rows_of, transposed, stack, matrix_row, dot_product, products_of, product};
ghost use Rattle.hp_word.specs.RowRules.{are_level, row_at};
ghost use Rattle.hp_word.specs.Tables.{row_count};
ghost use Rattle.hp_meaning.specs.HeldValues.{looked};
ghost use Rattle.hp_meaning.specs.MatrixRules.{stacked, row_value, multiplied, flipped_value};
ghost use Rattle.hp_meaning.specs.Outcomes.{Tells, told};

use crate::held::Look;
use crate::seen::Stop;
use crate::value::{Kind, Value};
use hp_word::lengths::LONGEST;
use hp_word::matrix::Matrix;
use hp_word::place::{NoMemory, Place, TrapKind};
use hp_word::sequence::Sequence;
use hp_word::word::{add, mul};
use std::alloc::Global;

/// The word at a place from 0, and 0 behind the last.
pub fn cell_at(xs: &[i64], place: usize) -> i64
    ensures { result ≡ slice_index_or xs.now place (pos 0) }
{
    if place < xs.len() { xs[place] } else { 0 }
}

/// The row of columns with this place from 0.
fn row_at(alloc: Global, columns: &[Sequence<i64>], place: usize) -> Result<Sequence<i64>, NoMemory>
    ensures { IfOk result (λ row. row ≡ row_at columns.now place) }
{
    let mut row = Sequence::new(alloc);
    for column in columns {
        row.push(cell_at(column.as_slice(), place))?;
    }
    Ok(row)
}

/// The rows of a matrix.
#[tactic(auto, unfolding(hp_word::specs::MatrixRules::rows_of))]
fn rows_of(alloc: Global, matrix: &Matrix) -> Result<Sequence<Sequence<i64>>, NoMemory>
    ensures { IfOk result (λ rows. rows ≡ rows_of matrix.now) }
{
    let mut rows = Sequence::new(alloc);
    for i in 0..matrix.rows {
        rows.push(row_at(alloc, matrix.columns.as_slice(), i as usize)?)?;
    }
    Ok(rows)
}

/// The matrix whose columns are the rows of another.
#[tactic(auto, unfolding(hp_word::specs::MatrixRules::transposed))]
fn transposed(alloc: Global, matrix: &Matrix) -> Result<Matrix, NoMemory>
    ensures { IfOk result (λ made. made ≡ transposed matrix.now) }
{
    let columns = rows_of(alloc, matrix)?;
    let rows = matrix.columns.len() as u64;
    Ok(Matrix { rows, columns })
}

/// How long the first list is.
fn row_count(lists: &[Sequence<i64>]) -> usize
    ensures { result ≡ row_count lists.now }
{
    match lists.first() {
        Some(first) => first.len(),
        None => 0,
    }
}

/// Whether the lists have the length of the first.
fn are_level(lists: &[Sequence<i64>]) -> bool
    ensures { result ≡ are_level lists.now }
{
    let length = row_count(lists);
    lists.iter().all(|list| list.len() == length)
}

/// Whether a matrix of so many rows and columns has too many cells.
fn is_too_long(rows: u64, columns: u64) -> bool
    ensures { IsFalse result ↔ (rows * columns ≤ longest) }
{
    match rows.checked_mul(columns) {
        Some(size) => size > LONGEST,
        None => true,
    }
}

/// The matrix of these rows.
#[tactic(auto, unfolding(hp_word::specs::MatrixRules::stack, crate::specs::Outcomes::halted))]
fn stack(alloc: Global, at: Place, rows: Sequence<Sequence<i64>>) -> Result<Matrix, Stop>
    ensures { Tells (told (stack at rows)) result }
{
    if !are_level(rows.as_slice()) {
        return Err(Stop::trap(at, TrapKind::Mismatch));
    }
    let width = row_count(rows.as_slice()) as u64;
    if is_too_long(rows.len() as u64, width) {
        return Err(Stop::trap(at, TrapKind::TooLong));
    }
    let lying = Matrix {
        rows: width,
        columns: rows,
    };
    Ok(transposed(alloc, &lying)?)
}

/// `stack(a, b)`
#[tactic(auto, unfolding(crate::specs::MatrixRules::stacked, crate::specs::Outcomes::halted))]
pub fn stacked(alloc: Global, at: Place, rows: Sequence<Sequence<i64>>) -> Result<Value, Stop>
    ensures { Tells (stacked at rows) result }
{
    if rows.is_empty() {
        return Err(Stop::Wrong);
    }
    Ok(Value::Matrix(stack(alloc, at, rows)?))
}

/// The row of a matrix at a position from 1.
#[tactic(auto, unfolding(hp_word::specs::MatrixRules::matrix_row, crate::specs::Outcomes::halted))]
fn matrix_row(alloc: Global, at: Place, matrix: &Matrix, i: i64) -> Result<Sequence<i64>, Stop>
    ensures { Tells (told (matrix_row at matrix.now i)) result }
{
    if i < 1 {
        return Err(Stop::trap(at, TrapKind::Index));
    }
    let place = (i - 1) as u64;
    if place >= matrix.rows {
        return Err(Stop::trap(at, TrapKind::Index));
    }
    Ok(row_at(alloc, matrix.columns.as_slice(), place as usize)?)
}

/// `row(M, i)`
#[tactic(auto, unfolding(crate::specs::MatrixRules::row_value, crate::specs::Outcomes::halted))]
pub fn row_value(alloc: Global, at: Place, a: Look, b: Look) -> Result<Value, Stop>
    ensures { Tells (row_value at (looked a.entry) (looked b.entry)) result }
{
    let matrix = a.matrix()?;
    let i = b.word_of(Kind::Number)?;
    Ok(Value::List(Kind::Number, matrix_row(alloc, at, matrix, i)?))
}

/// The wrapped sum of the products of two lists' elements, place by place.
fn dot_product(xs: &[i64], ys: &[i64]) -> i64
    ensures { result ≡ dot_product xs.now ys.now }
{
    let mut total = 0;
    for (i, x) in xs.iter().enumerate() {
        if i < ys.len() {
            total = add(total, mul(*x, ys[i]));
        }
    }
    total
}

/// The products of rows with a column.
#[tactic(auto, unfolding(hp_word::specs::MatrixRules::products_of))]
fn products(
    alloc: Global,
    rows: &[Sequence<i64>],
    column: &[i64],
) -> Result<Sequence<i64>, NoMemory>
    ensures { IfOk result (λ made. made ≡ products_of rows.now column.now) }
{
    let mut made = Sequence::new(alloc);
    for row in rows {
        made.push(dot_product(row.as_slice(), column))?;
    }
    Ok(made)
}

/// The products of rows with columns.
fn product_columns(
    alloc: Global,
    rows: &[Sequence<i64>],
    columns: &[Sequence<i64>],
) -> Result<Sequence<Sequence<i64>>, NoMemory>
    ensures { IfOk result (λ made. made ≡ map (products_of rows.now) columns.now) }
{
    let mut made = Sequence::new(alloc);
    for column in columns {
        made.push(products(alloc, rows, column.as_slice())?)?;
    }
    Ok(made)
}

/// The product of two matrices; the rows of the first are made once.
#[tactic(auto, unfolding(hp_word::specs::MatrixRules::product, crate::specs::Outcomes::halted))]
fn product(alloc: Global, at: Place, a: &Matrix, b: &Matrix) -> Result<Matrix, Stop>
    ensures { Tells (told (product at a.now b.now)) result }
{
    if a.columns.len() as u64 != b.rows {
        return Err(Stop::trap(at, TrapKind::Mismatch));
    }
    if is_too_long(a.rows, b.columns.len() as u64) {
        return Err(Stop::trap(at, TrapKind::TooLong));
    }
    let rows = rows_of(alloc, a)?;
    let columns = product_columns(alloc, rows.as_slice(), b.columns.as_slice())?;
    Ok(Matrix {
        rows: a.rows,
        columns,
    })
}

/// `A * B`
#[tactic(auto, unfolding(crate::specs::MatrixRules::multiplied, crate::specs::Outcomes::halted))]
pub fn multiplied(alloc: Global, at: Place, a: &Matrix, b: &Matrix) -> Result<Value, Stop>
    ensures { Tells (multiplied at a.now b.now) result }
{
    Ok(Value::Matrix(product(alloc, at, a, b)?))
}

/// `A * transpose(B)`
#[tactic(auto, unfolding(crate::specs::MatrixRules::flipped_value, crate::specs::Outcomes::halted))]
pub fn flipped_value(alloc: Global, at: Place, a: Look, b: Look) -> Result<Value, Stop>
    ensures { Tells (flipped_value at (looked a.entry) (looked b.entry)) result }
{
    let left = a.matrix()?;
    let right = b.matrix()?;
    let standing = transposed(alloc, right)?;
    multiplied(alloc, at, left, &standing)
}
