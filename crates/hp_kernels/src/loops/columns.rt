// The columns that a loop works with: words at the places of a block, which of the places count, and how far it goes.

ghost use Rattle.std.specs.Prelude.{◌≡◌, ℕ, IfOk};
ghost use Rattle.hp_kernels.specs.LoopColumns.{IsLong, ReadsAs, cell_of, counts};

use hp_word::place::{NoMemory, Trap};
use hp_word::word::is_true;
use std::alloc::Global;

/// The words of a column at the places of a block, from its first place on.
#[derive(Drop)]
pub enum Operand<'a> {
    /// One word at all places.
    Same(i64),
    /// Cells that are read where they stand.
    Cells(&'a [i64]),
    /// Cells of its own, which may be changed in place.
    Made(Vec<i64>),
}

/// Which places of a block count.
#[derive(Clone, Copy)]
pub enum Mask<'a> {
    All,
    /// Those whose cell is not 0.
    Where(&'a [i64]),
}

/// How far a loop goes in a block, and the trap that ends it there.
#[derive(Drop)]
pub struct Reach {
    pub places: usize,
    pub trap: Option<Trap>,
}

/// Whether a place counts.
#[inline(always)]
pub fn counts(mask: Mask, place: usize) -> bool
    ensures { result ≡ counts mask.entry place }
{
    match mask {
        Mask::All => true,
        Mask::Where(cells) => place < cells.len() && is_true(cells[place]),
    }
}

/// A column's own cells: a made one's as they are, else so many that are copied.
pub fn own_cells(alloc: Global, column: Operand, places: usize) -> Result<Vec<i64>, NoMemory>
    requires { IsLong places column }
    ensures { IfOk result (λ cells. ReadsAs places column.entry (Operand.Made cells)) }
{
    match column {
        Operand::Same(word) => Ok(vec![in alloc; word; places]?),
        Operand::Cells(cells) => Ok(Vec::from_slice(alloc, &cells[..places])?),
        Operand::Made(cells) => Ok(cells),
    }
}

/// A column that holds no cells of others.
pub fn owned<'b>(alloc: Global, column: Operand, places: usize) -> Result<Operand<'b>, NoMemory>
    requires { IsLong places column }
    ensures { IfOk result (ReadsAs places column.entry) }
{
    match column {
        Operand::Same(word) => Ok(Operand::Same(word)),
        other => Ok(Operand::Made(own_cells(alloc, other, places)?)),
    }
}

/// A look at a column.
pub fn look<'b>(column: &'b Operand) -> Operand<'b>
    ensures long { (places : ℕ) → IsLong places column.now → IsLong places result }
    ensures same { (i : ℕ) → cell_of result i ≡ cell_of column.now i }
{
    match column {
        Operand::Same(word) => Operand::Same(*word),
        Operand::Cells(cells) => Operand::Cells(cells),
        Operand::Made(cells) => Operand::Cells(cells.as_slice()),
    }
}
