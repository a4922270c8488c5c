// Joins of frames.

ghost use Rattle.std.specs.Prelude.{◌≡◌, ◌++◌, ◌+◌, map, IfOk, IfErr, OnOk};
ghost use Rattle.hp_meaning.specs.FrameRules.{changed, without, joined_rows, joined_keys, joined};
ghost use Rattle.hp_meaning.specs.HeldValues.{looked};
ghost use Rattle.hp_meaning.specs.Outcomes.{told, Tells, ComesTo};
ghost use Rattle.hp_word.specs.RowRules.{join_pairs, cell_of, by_left, by_right};
ghost use Rattle.hp_meaning.specs.KeyedRows.{next_place};

use crate::columns::{column_of, copied_name, is_named};
use crate::held::Look;
use crate::orders::order_taken;
use crate::seen::{Met, Stop};
use crate::value::{Column, Value};
use hp_kernels::joins::{KernelError, join_rows};
use hp_word::order::{Order, RowPlace};
use hp_word::place::{NoMemory, Place, TrapKind};
use hp_word::sequence::Sequence;
use std::alloc::Global;

/// The columns of a frame, and the cells of the one that it is joined by.
#[derive(Clone, Copy)]
struct Side<'a> {
    columns: &'a [Column],
    keys: &'a [i64],
}

/// The place from 1 of a row by its place from 0.
pub fn place_of(row: u64) -> Result<u64, Stop>
    ensures ok { IfOk result (λ place. place ≡ row + 1) }
    ensures err { IfErr result (λ e. e ≡ Stop.NoMemory) }
{
    match row.checked_add(1) {
        Some(place) => Ok(place),
        None => Err(Stop::NoMemory),
    }
}

/// Pairs of rows by their places from 1.
fn places_of(alloc: Global, pairs: &[RowPlace]) -> Result<Sequence<RowPlace>, Stop>
    ensures ok { IfOk result (λ made. made ≡ map next_place pairs.now) }
    ensures err { IfErr result (λ e. e ≡ Stop.NoMemory) }
{
    let mut made = Sequence::new(alloc);
    for pair in pairs {
        made.push(RowPlace {
            left: place_of(pair.left)?,
            right: place_of(pair.right)?,
        })?;
    }
    Ok(made)
}

/// The pairs of rows with equal keys, by left and then by right row, at most 2^20.
fn join_pairs(
    alloc: Global,
    at: Place,
    left: &[i64],
    right: &[i64],
) -> Result<Sequence<RowPlace>, Stop>
    ensures { Tells (told (join_pairs at left.now right.now)) result }
{
    match join_rows(alloc, left, right) {
        Ok(pairs) => places_of(alloc, pairs.as_slice()),
        Err(KernelError::TooMany) => Err(Stop::trap(at, TrapKind::TooLong)),
        Err(KernelError::NoMemory) => Err(Stop::NoMemory),
    }
}

/// A cell of a column by its row's place from 1, and 0 where there is none.
pub fn cell_of(cells: &[i64], place: u64) -> i64
    ensures { result ≡ cell_of cells.now place }
{
    let index = place.saturating_sub(1) as usize;
    if index < cells.len() { cells[index] } else { 0 }
}

/// A column's cells in the order of the left places.
#[tactic(auto, unfolding(hp_word::specs::RowRules::by_left))]
pub fn by_left(alloc: Global, cells: &[i64], places: &[RowPlace]) -> Result<Sequence<i64>, NoMemory>
    ensures { IfOk result (λ made. made ≡ by_left cells.now places.now) }
{
    let mut made = Sequence::new(alloc);
    for p in places {
        made.push(cell_of(cells, p.left))?;
    }
    Ok(made)
}

/// A column's cells in the order of the right places.
#[tactic(auto, unfolding(hp_word::specs::RowRules::by_right))]
fn by_right(alloc: Global, cells: &[i64], places: &[RowPlace]) -> Result<Sequence<i64>, NoMemory>
    ensures { IfOk result (λ made. made ≡ by_right cells.now places.now) }
{
    let mut made = Sequence::new(alloc);
    for p in places {
        made.push(cell_of(cells, p.right))?;
    }
    Ok(made)
}

/// Adds the left columns in an order.
#[tactic(auto, unfolding(hp_word::specs::RowRules::by_left))]
fn add_left(
    alloc: Global,
    made: &mut Sequence<Column>,
    columns: &[Column],
    places: &[RowPlace],
) -> Result<(), NoMemory>
    ensures { OnOk result (made.new ≡ made.old ++ changed (λ cells. by_left cells places.now) columns.now) }
{
    for column in columns {
        made.push(Column {
            name: copied_name(alloc, &column.name)?,
            cells: by_left(alloc, column.cells.as_slice(), places)?,
        })?;
    }
    Ok(())
}

/// Adds the right columns but for the key in an order.
#[tactic(auto, unfolding(crate::specs::FrameRules::without, hp_word::specs::RowRules::by_right))]
fn add_right(
    alloc: Global,
    made: &mut Sequence<Column>,
    key: &[u8],
    columns: &[Column],
    places: &[RowPlace],
) -> Result<(), NoMemory>
    ensures { OnOk result (made.new ≡ made.old ++ changed (λ cells. by_right cells places.now) (without key.now columns.now)) }
{
    for column in columns {
        if !is_named(key, column) {
            made.push(Column {
                name: copied_name(alloc, &column.name)?,
                cells: by_right(alloc, column.cells.as_slice(), places)?,
            })?;
        }
    }
    Ok(())
}

/// The rows of a join in an order.
#[tactic(auto, unfolding(crate::specs::FrameRules::joined_rows))]
fn joined_rows(
    alloc: Global,
    key: &[u8],
    left: &[Column],
    right: &[Column],
    places: &[RowPlace],
) -> Result<Sequence<Column>, NoMemory>
    ensures { IfOk result (λ made. made ≡ joined_rows key.now left.now right.now places.now) }
{
    let mut made = Sequence::new(alloc);
    add_left(alloc, &mut made, left, places)?;
    add_right(alloc, &mut made, key, right, places)?;
    Ok(made)
}

/// The join of frames by these keys.
#[tactic(auto, unfolding(crate::specs::Outcomes::stopped))]
fn joined_keys(
    alloc: Global,
    orders: &[Order],
    at: Place,
    key: &[u8],
    left: Side,
    right: Side,
    met: &mut Met,
) -> Result<Value, Stop>
    ensures { ComesTo (joined_keys orders.now at key.now left.entry.columns.now right.entry.columns.now left.entry.keys.now right.entry.keys.now met.old) result met.new }
{
    let plain = join_pairs(alloc, at, left.keys, right.keys)?;
    let number = met.next_number()?;
    let taken = order_taken(alloc, number, orders, plain.as_slice())?;
    let made = joined_rows(alloc, key, left.columns, right.columns, taken.places)?;
    met.execute(taken.is_bad)?;
    Ok(Value::Frame(made))
}

/// `join(l, r, :k)`
#[tactic(auto, unfolding(crate::specs::FrameRules::joined, crate::specs::Outcomes::stopped))]
pub fn joined(
    alloc: Global,
    orders: &[Order],
    at: Place,
    key: &[u8],
    a: Look,
    b: Look,
    met: &mut Met,
) -> Result<Value, Stop>
    ensures { ComesTo (joined orders.now at key.now (looked a.entry) (looked b.entry) met.old) result met.new }
{
    let left = a.frame()?;
    let right = b.frame()?;
    let left = Side {
        keys: column_of(key, left)?.as_slice(),
        columns: left,
    };
    let right = Side {
        keys: column_of(key, right)?.as_slice(),
        columns: right,
    };
    joined_keys(alloc, orders, at, key, left, right, met)
}
