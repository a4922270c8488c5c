// What a loop reads.

ghost use Rattle.std.specs.Prelude.{◌≡◌, ◌+◌, ◌<◌, ◌+ℤ◌, ◌-ℤ◌, ◌^◌, ℕ, ℤ, List, pos, IfOk, IfSome};
ghost use Rattle.hp_word.specs.Elem.{Sight};
ghost use Rattle.hp_word.specs.LoopRules.{cell_at, word_at};
ghost use Rattle.hp_kernels.specs.LoopColumns.{IsWindow};

use crate::loops::columns::Operand;
use hp_word::place::NoMemory;
use std::alloc::Global;

/// The cells that a halo has: those of the loop's own places begin so far behind the first one.
#[derive(Clone, Copy)]
pub struct Halo<'a> {
    pub cells: &'a [i64],
    pub reach: u32,
}

/// What a loop reads at its places, which count from 0.
pub trait Sources {
    ghost sight: { Self → ℕ → List ℤ → Sight };

    /// A scalar word, which is the same at all places.
    fn word(&self, k: u32) -> i64
        ensures { (i : ℕ) (lets : List ℤ) → (sight self.now i lets).word k ≡ result };

    /// The cells of an input, by the loop's places; 0 where there is none.
    fn input(&self, k: u32) -> &[i64]
        ensures { (i : ℕ) (lets : List ℤ) → (sight self.now i lets).input k ≡ word_at result.now i };

    /// The cells of a halo; 0 where there is none.
    fn halo(&self, k: u32) -> Halo<'_>
        ensures { (i : ℕ) (lets : List ℤ) (by : ℤ) → (sight self.now i lets).near k by ≡ cell_at result.cells.now (pos (i + result.reach) +ℤ by) };

    ghost reads_lets: { (s : Self) (i : ℕ) (lets : List ℤ) (k : ℕ) → (sight s i lets).earlier k ≡ word_at lets k };
}

// The cell so many places from this one, or 0 outside the list.
fn cell_near(cells: &[i64], at: usize, by: i64) -> i64
    ensures { result ≡ cell_at cells.now (pos at +ℤ by) }
{
    if by < 0 {
        cell_back(cells, at, by.unsigned_abs() as usize)
    } else {
        cell_on(cells, at, by as usize)
    }
}

// The cell so many places before this one, or 0 before the list.
fn cell_back(cells: &[i64], at: usize, back: usize) -> i64
    ensures { result ≡ cell_at cells.now (pos at -ℤ pos back) }
{
    if back <= at && at - back < cells.len() {
        cells[at - back]
    } else {
        0
    }
}

// The cell so many places after this one, or 0 past the list.
fn cell_on(cells: &[i64], at: usize, on: usize) -> i64
    ensures { result ≡ word_at cells.now (at + on) }
{
    if at < cells.len() && on < cells.len() - at {
        cells[at + on]
    } else {
        0
    }
}

// The place so many places from this one, where there is one.
fn moved(at: usize, by: i64) -> Option<usize>
    ensures { IfSome result (λ place. pos place ≡ pos at +ℤ by) }
{
    if by < 0 {
        at.checked_sub(by.unsigned_abs() as usize)
    } else {
        at.checked_add(by as usize)
    }
}

// A copy of the cells from so many places from the first one on, with 0 outside the list.
fn copied_window(
    alloc: Global,
    cells: &[i64],
    first: usize,
    by: i64,
    places: usize,
) -> Result<Vec<i64>, NoMemory>
    requires { first + places < 2 ^ 64 }
    ensures { IfOk result (λ made. IsWindow cells.now first by places (Operand.Made made)) }
{
    let mut made = vec![in alloc; 0i64; places]?;
    for i in 0..places {
        made[i] = cell_near(cells, first + i, by);
    }
    Ok(made)
}

/// The cells from so many places from the first one on, with 0 outside the list.
pub(crate) fn window<'a>(
    alloc: Global,
    cells: &'a [i64],
    first: usize,
    by: i64,
    places: usize,
) -> Result<Operand<'a>, NoMemory>
    requires { first + places < 2 ^ 64 }
    ensures { IfOk result (IsWindow cells.now first by places) }
{
    if let Some(start) = moved(first, by) {
        if start <= cells.len() && places <= cells.len() - start {
            return Ok(Operand::Cells(&cells[start..]));
        }
    }
    Ok(Operand::Made(copied_window(alloc, cells, first, by, places)?))
}
