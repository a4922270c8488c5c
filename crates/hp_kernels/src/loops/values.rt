// The column that an element is at the places of a block.

ghost use Rattle.std.specs.Prelude.{◌≡◌, ◌+◌, ◌<◌, ◌^◌, ◌≤◌, ◌&&◌, if◌then◌else◌, ℕ, ℤ, List, Result, true, length, IfOk, IfSome};
ghost use Rattle.hp_word.specs.declared.place.Trap.{Trap};
ghost use Rattle.hp_word.specs.Elem.{elem_value, trapped_at};
ghost use Rattle.hp_word.specs.LoopRules.{word_at};
ghost use Rattle.hp_word.specs.Words.{calculated, is_true};
ghost use Rattle.hp_kernels.specs.declared.loops.columns.Reach.{Reach};
ghost use Rattle.hp_kernels.specs.LoopColumns.{AreLong, IsColumn, IsLong, calculated_on, cell_of, counts, guarded_by, is_wanted, row_of};

use crate::loops::cells::{Side, calc_cells, choose, narrow};
use crate::loops::columns::{Mask, Operand, Reach, look, own_cells, owned};
use crate::loops::reads::{Sources, window};
use hp_word::elem::Elem;
use hp_word::place::{NoMemory, Place, Trap};
use hp_word::word::{CalcOp, calc, is_true, word_of};
use std::alloc::Global;

/// A block of places: its first one, what the loop reads, and the lets before.
#[derive(Drop)]
pub struct Block<'a, 'b, S> {
    pub alloc: Global,
    pub source: &'a S,
    pub first: usize,
    pub kept: &'a [Operand<'b>],
}

/// The column of an earlier let; 0 where there is none.
#[tactic(auto, using(crate::proofs::ValueLemmas::let_long, crate::proofs::ValueLemmas::let_word))]
pub fn earlier<'a>(kept: &'a [Operand<'_>], k: u32) -> Operand<'a>
    ensures long { (places : ℕ) → AreLong places kept.now → IsLong places result }
    ensures same { (i : ℕ) → cell_of result i ≡ word_at (row_of kept.now i) k }
{
    let k = k as usize;
    if k < kept.len() {
        look(&kept[k])
    } else {
        Operand::Same(0)
    }
}

// The word that an operation gives of two words, where both columns are one word and it gives one.
fn both_words(op: CalcOp, x: &Operand, y: &Operand) -> Option<i64>
    ensures { IfSome result (λ word. (i : ℕ) → calculated op (cell_of x.now i) (cell_of y.now i) ≡ Ok word) }
{
    let Operand::Same(a) = x else { return None };
    let Operand::Same(b) = y else { return None };
    match calc(op, *a, *b) {
        Ok(word) => Some(word),
        Err(_) => None,
    }
}

// The side whose cells are changed: the right one where it alone has cells that may be.
fn changed_side(x: &Operand, y: &Operand) -> Side {
    match x {
        Operand::Same(_) => Side::Right,
        Operand::Made(_) => Side::Left,
        Operand::Cells(_) => match y {
            Operand::Made(_) => Side::Right,
            _ => Side::Left,
        },
    }
}

// An operation on the cells of one side and on the other column.
fn changed<'a>(
    side: Side,
    op: CalcOp,
    at: Place,
    mut cells: Vec<i64>,
    other: &Operand,
    mask: Mask,
    reach: &mut Reach,
) -> Operand<'a>
    requires long { reach.old.places ≤ length cells.items }
    requires other_long { IsLong reach.old.places other.now }
    ensures { IsColumn (counts mask.entry) (λ i. trapped_at at (calculated_on side op (word_at cells.items i) (cell_of other.now i))) reach.old reach.new result }
{
    if let Some(fault) = calc_cells(side, op, mask, cells.as_mut_slice(), reach.places, other) {
        reach.places = fault.place;
        reach.trap = Some(Trap {
            at,
            kind: fault.kind,
        });
    }
    Operand::Made(cells)
}

// An operation on two columns.
fn operation<'a>(
    alloc: Global,
    op: CalcOp,
    at: Place,
    x: Operand,
    y: Operand,
    mask: Mask,
    reach: &mut Reach,
) -> Result<Operand<'a>, NoMemory>
    requires x_long { IsLong reach.old.places x }
    requires y_long { IsLong reach.old.places y }
    ensures { IfOk result (IsColumn (counts mask.entry) (λ i. trapped_at at (calculated op (cell_of x.entry i) (cell_of y.entry i))) reach.old reach.new) }
{
    if let Some(word) = both_words(op, &x, &y) {
        return Ok(Operand::Same(word));
    }
    match changed_side(&x, &y) {
        Side::Left => {
            let cells = own_cells(alloc, x, reach.places)?;
            Ok(changed(Side::Left, op, at, cells, &y, mask, reach))
        }
        Side::Right => {
            let cells = own_cells(alloc, y, reach.places)?;
            Ok(changed(Side::Right, op, at, cells, &x, mask, reach))
        }
    }
}

// Whether the truth of a column that is one word is as is wanted.
fn passes(wanted: bool, x: &Operand) -> Option<bool>
    ensures { IfSome result (λ passes. (i : ℕ) → is_wanted wanted (cell_of x.now i) ≡ passes) }
{
    match x {
        Operand::Same(word) => Some(is_true(*word) == wanted),
        _ => None,
    }
}

// Cells that are true at the places that count further: those that did, where the truth of a column is as is wanted.
fn narrowed(
    alloc: Global,
    wanted: bool,
    mask: Mask,
    x: Operand,
    places: usize,
) -> Result<Vec<i64>, NoMemory>
    requires { IsLong places x }
    ensures long { IfOk result (λ cells. places ≤ length cells.items) }
    ensures same { IfOk result (λ cells. (i : ℕ) → i < places → is_true (word_at cells.items i) ≡ (counts mask.entry i && is_wanted wanted (cell_of x.entry i))) }
{
    let mut cells = own_cells(alloc, x, places)?;
    narrow(wanted, mask, cells.as_mut_slice(), places);
    Ok(cells)
}

// A column's words where the cells are true, and else one word.
fn chosen<'a>(mut cells: Vec<i64>, places: usize, y: &Operand, word: i64) -> Operand<'a>
    requires long { places ≤ length cells.items }
    requires other_long { IsLong places y.now }
    ensures long { IsLong places result }
    ensures same { (i : ℕ) → i < places → cell_of result i ≡ (if is_true (word_at cells.items i) then cell_of y.now i else word) }
{
    choose(cells.as_mut_slice(), places, y, word);
    Operand::Made(cells)
}

// The cells of an input at the places of a block.
fn input<'a, S: Sources>(
    alloc: Global,
    source: &'a S,
    first: usize,
    k: u32,
    places: usize,
) -> Result<Operand<'a>, NoMemory>
    requires { first + places < 2 ^ 64 }
    ensures { IfOk result (λ made. IsLong places made × ((i : ℕ) (lets : List ℤ) → i < places → cell_of made i ≡ (S.sight source.now (first + i) lets).input k)) }
{
    window(alloc, source.input(k), first, 0, places)
}

// The cells of a halo so many places further.
fn near<'a, S: Sources>(
    block: &Block<'a, '_, S>,
    k: u32,
    by: i32,
    places: usize,
) -> Result<Operand<'a>, NoMemory>
    requires { block.now.first + places < 2 ^ 64 }
    ensures { IfOk result (λ made. IsLong places made × ((i : ℕ) (lets : List ℤ) → i < places → cell_of made i ≡ (S.sight block.now.source.now (block.now.first + i) lets).near k by)) }
{
    let halo = block.source.halo(k);
    let by = i64::from(halo.reach) + i64::from(by);
    window(block.alloc, halo.cells, block.first, by, places)
}

/// The column of an element at the places of a block that count, as far as the block then goes.
#[cycle(values)]
pub fn value<'a, S: Sources>(
    block: &Block<'a, '_, S>,
    elem: &Elem,
    mask: Mask,
    reach: &mut Reach,
) -> Result<Operand<'a>, NoMemory>
    requires room { block.now.first + reach.old.places < 2 ^ 64 }
    requires kept { AreLong reach.old.places block.now.kept.now }
    ensures { IfOk result (IsColumn (counts mask.entry) (λ i. elem_value (S.sight block.now.source.now (block.now.first + i) (row_of block.now.kept.now i)) elem.now) reach.old reach.new) }
{
    match elem {
        Elem::Number(n) => Ok(Operand::Same(*n)),
        Elem::Word(k) => Ok(Operand::Same(block.source.word(*k))),
        Elem::Input(k) => input(block.alloc, block.source, block.first, *k, reach.places),
        Elem::Near(k, by) => near(block, *k, *by, reach.places),
        Elem::Earlier(k) => Ok(earlier(block.kept, *k)),
        Elem::Calc(op, at, a, b) => {
            let x = value(block, a.get(), mask, reach)?;
            let y = value(block, b.get(), mask, reach)?;
            operation(block.alloc, *op, *at, x, y, mask, reach)
        }
        Elem::Both(a, b) => {
            let x = value(block, a.get(), mask, reach)?;
            guarded(block, b.get(), true, x, mask, reach)
        }
        Elem::Either(a, b) => {
            let x = value(block, a.get(), mask, reach)?;
            guarded(block, b.get(), false, x, mask, reach)
        }
    }
}

// The second of two parts behind the column of the first, which decides where its truth is not as is wanted.
#[cycle(values)]
fn guarded<'a, S: Sources>(
    block: &Block<'a, '_, S>,
    second: &Elem,
    wanted: bool,
    x: Operand,
    mask: Mask,
    reach: &mut Reach,
) -> Result<Operand<'a>, NoMemory>
    requires room { block.now.first + reach.old.places < 2 ^ 64 }
    requires kept { AreLong reach.old.places block.now.kept.now }
    requires long { IsLong reach.old.places x }
    ensures { (old : Reach) (first : ℕ → Result ℤ Trap) → IsColumn (counts mask.entry) first old reach.old x.entry
        → IfOk result (IsColumn (counts mask.entry) (λ i. guarded_by wanted (first i) (elem_value (S.sight block.now.source.now (block.now.first + i) (row_of block.now.kept.now i)) second.now)) old reach.new) }
{
    match passes(wanted, &x) {
        Some(true) => value(block, second, mask, reach),
        Some(false) => Ok(Operand::Same(word_of(!wanted))),
        None => {
            let cells = narrowed(block.alloc, wanted, mask, x, reach.places)?;
            let y = value(block, second, Mask::Where(cells.as_slice()), reach)?;
            Ok(chosen(cells, reach.places, &y, word_of(!wanted)))
        }
    }
}

/// The column of one more let; cells of an input are not copied.
pub fn let_column<'a, S: Sources>(
    alloc: Global,
    elem: &Elem,
    source: &'a S,
    first: usize,
    kept: &[Operand<'a>],
    reach: &mut Reach,
) -> Result<Operand<'a>, NoMemory>
    requires room { first + reach.old.places < 2 ^ 64 }
    requires kept_long { AreLong reach.old.places kept.now }
    ensures { IfOk result (IsColumn (λ i. true) (λ i. elem_value (S.sight source.now (first + i) (row_of kept.now i)) elem.now) reach.old reach.new) }
{
    match elem {
        Elem::Input(k) => input(alloc, source, first, *k, reach.places),
        _ => {
            let block = Block {
                alloc,
                source,
                first,
                kept,
            };
            let made = value(&block, elem, Mask::All, reach)?;
            owned(alloc, made, reach.places)
        }
    }
}
