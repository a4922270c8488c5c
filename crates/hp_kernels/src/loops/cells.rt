// Operations on the cells of a column, in place: the operator is chosen outside of the loop.

ghost use Rattle.std.specs.Prelude.{◌≡◌, ◌≤◌, ◌&&◌, length};
ghost use Rattle.hp_word.specs.LoopRules.{word_at};
ghost use Rattle.hp_word.specs.Words.{is_true};
ghost use Rattle.hp_kernels.specs.LoopColumns.{Chooses, Fills, IsLong, Narrows, calculated_on, cell_of, counts, is_wanted};

use crate::loops::columns::{Mask, Operand, counts};
use hp_word::place::TrapKind;
use hp_word::word::{CalcOp, calc, is_true, word_of};

/// The first place that counts at which an operation has no value, and why.
#[derive(Clone, Copy)]
pub struct Fault {
    pub place: usize,
    pub kind: TrapKind,
}

/// Which side of an operation the cells are that it changes.
#[derive(Clone, Copy)]
pub enum Side {
    Left,
    Right,
}

/// What an operation gives of a cell and the word on its other side.
#[inline(always)]
fn calc_on(side: Side, op: CalcOp, cell: i64, other: i64) -> Result<i64, TrapKind>
    ensures { result ≡ calculated_on side op cell other }
{
    match side {
        Side::Left => calc(op, cell, other),
        Side::Right => calc(op, other, cell),
    }
}

// With one word, at each of the first places.
#[inline(always)]
fn each_word(
    side: Side,
    op: CalcOp,
    mask: Mask,
    cells: &mut [i64],
    places: usize,
    word: i64,
) -> Option<Fault>
    requires { places ≤ length cells.old }
    ensures { Fills (counts mask.entry) (λ i. calculated_on side op (word_at cells.old i) word) places cells.new result }
{
    for i in 0..places {
        match calc_on(side, op, cells[i], word) {
            Ok(value) => cells[i] = value,
            Err(kind) => {
                if counts(mask, i) {
                    return Some(Fault { place: i, kind });
                }
            }
        }
    }
    None
}

// With the cells of another column, place by place.
#[inline(always)]
fn each_cell(
    side: Side,
    op: CalcOp,
    mask: Mask,
    cells: &mut [i64],
    places: usize,
    others: &[i64],
) -> Option<Fault>
    requires long { places ≤ length cells.old }
    requires others_long { places ≤ length others.now }
    ensures { Fills (counts mask.entry) (λ i. calculated_on side op (word_at cells.old i) (word_at others.now i)) places cells.new result }
{
    for i in 0..places {
        match calc_on(side, op, cells[i], others[i]) {
            Ok(value) => cells[i] = value,
            Err(kind) => {
                if counts(mask, i) {
                    return Some(Fault { place: i, kind });
                }
            }
        }
    }
    None
}

// With a column, at each of the first places.
#[inline(always)]
fn each(
    side: Side,
    op: CalcOp,
    mask: Mask,
    cells: &mut [i64],
    places: usize,
    other: &Operand,
) -> Option<Fault>
    requires long { places ≤ length cells.old }
    requires other_long { IsLong places other.now }
    ensures { Fills (counts mask.entry) (λ i. calculated_on side op (word_at cells.old i) (cell_of other.now i)) places cells.new result }
{
    match other {
        Operand::Same(word) => each_word(side, op, mask, cells, places, *word),
        Operand::Cells(others) => each_cell(side, op, mask, cells, places, others),
        Operand::Made(others) => each_cell(side, op, mask, cells, places, others.as_slice()),
    }
}

// With a column, by the operator, which each loop then has as a constant.
#[inline(always)]
fn by_operator(
    side: Side,
    op: CalcOp,
    mask: Mask,
    cells: &mut [i64],
    places: usize,
    other: &Operand,
) -> Option<Fault>
    requires long { places ≤ length cells.old }
    requires other_long { IsLong places other.now }
    ensures { Fills (counts mask.entry) (λ i. calculated_on side op (word_at cells.old i) (cell_of other.now i)) places cells.new result }
{
    match op {
        CalcOp::Add => each(side, CalcOp::Add, mask, cells, places, other),
        CalcOp::Sub => each(side, CalcOp::Sub, mask, cells, places, other),
        CalcOp::Mul => each(side, CalcOp::Mul, mask, cells, places, other),
        CalcOp::Div => each(side, CalcOp::Div, mask, cells, places, other),
        CalcOp::Rem => each(side, CalcOp::Rem, mask, cells, places, other),
        CalcOp::Min => each(side, CalcOp::Min, mask, cells, places, other),
        CalcOp::Max => each(side, CalcOp::Max, mask, cells, places, other),
        CalcOp::Eq => each(side, CalcOp::Eq, mask, cells, places, other),
        CalcOp::Ne => each(side, CalcOp::Ne, mask, cells, places, other),
        CalcOp::Lt => each(side, CalcOp::Lt, mask, cells, places, other),
        CalcOp::Le => each(side, CalcOp::Le, mask, cells, places, other),
        CalcOp::Gt => each(side, CalcOp::Gt, mask, cells, places, other),
        CalcOp::Ge => each(side, CalcOp::Ge, mask, cells, places, other),
        CalcOp::And => each(side, CalcOp::And, mask, cells, places, other),
        CalcOp::Or => each(side, CalcOp::Or, mask, cells, places, other),
        CalcOp::Not => each(side, CalcOp::Not, mask, cells, places, other),
        CalcOp::Neg => each(side, CalcOp::Neg, mask, cells, places, other),
    }
}

/// An operation on each of the first cells, which are on one side of it, and on another column's: the cells become what
/// it gives, up to the first place that counts at which it has no value.
pub fn calc_cells(
    side: Side,
    op: CalcOp,
    mask: Mask,
    cells: &mut [i64],
    places: usize,
    other: &Operand,
) -> Option<Fault>
    requires long { places ≤ length cells.old }
    requires other_long { IsLong places other.now }
    ensures { Fills (counts mask.entry) (λ i. calculated_on side op (word_at cells.old i) (cell_of other.now i)) places cells.new result }
{
    match side {
        Side::Left => by_operator(Side::Left, op, mask, cells, places, other),
        Side::Right => by_operator(Side::Right, op, mask, cells, places, other),
    }
}

// Whether a place counts further, as a word: it did, and its cell is true, or false, as is wanted.
#[inline(always)]
fn narrowed_word(wanted: bool, counted: bool, cell: i64) -> i64
    ensures { is_true result ≡ (counted && is_wanted wanted cell) }
{
    word_of(counted && is_true(cell) == wanted)
}

// Which of the first places count further: those that did, and whose cell is true, or false, as is wanted.
#[inline(always)]
fn each_narrowed(wanted: bool, mask: Mask, cells: &mut [i64], places: usize)
    requires { places ≤ length cells.old }
    ensures { Narrows wanted mask.entry places cells.old cells.new }
{
    for i in 0..places {
        let word = narrowed_word(wanted, counts(mask, i), cells[i]);
        cells[i] = word;
    }
}

/// Makes of the first cells which of the places count further: those that did, and whose cell is true, or false, as is
/// wanted.
pub fn narrow(wanted: bool, mask: Mask, cells: &mut [i64], places: usize)
    requires { places ≤ length cells.old }
    ensures { Narrows wanted mask.entry places cells.old cells.new }
{
    match mask {
        Mask::All => each_narrowed(wanted, Mask::All, cells, places),
        Mask::Where(counted) => each_narrowed(wanted, Mask::Where(counted), cells, places),
    }
}

// One word where the cell is not 0, and else another one.
fn choose_word(cells: &mut [i64], places: usize, given: i64, word: i64)
    requires { places ≤ length cells.old }
    ensures { Chooses (λ _. given) word places cells.old cells.new }
{
    for i in 0..places {
        cells[i] = if is_true(cells[i]) { given } else { word };
    }
}

// The cells of another column where the cell is not 0, and else one word.
fn choose_cell(cells: &mut [i64], places: usize, others: &[i64], word: i64)
    requires long { places ≤ length cells.old }
    requires others_long { places ≤ length others.now }
    ensures { Chooses (word_at others.now) word places cells.old cells.new }
{
    for i in 0..places {
        cells[i] = if is_true(cells[i]) { others[i] } else { word };
    }
}

/// Makes of each of the first cells that is not 0 the word of another column, and one word of the others.
pub fn choose(cells: &mut [i64], places: usize, other: &Operand, word: i64)
    requires long { places ≤ length cells.old }
    requires other_long { IsLong places other.now }
    ensures { Chooses (cell_of other.now) word places cells.old cells.new }
{
    match other {
        Operand::Same(given) => choose_word(cells, places, *given, word),
        Operand::Cells(others) => choose_cell(cells, places, others, word),
        Operand::Made(others) => choose_cell(cells, places, others.as_slice(), word),
    }
}
