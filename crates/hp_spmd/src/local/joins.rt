// What Join does to a store.

ghost use Rattle.std.specs.Prelude.{◌≡◌, ◌++◌, ◌+◌, ◌-◌, ◌<◌, ◌^◌, map, remove, IfOk, OnOk, OnErr};
ghost use Rattle.hp_word.specs.LoopRules.{word_at};
ghost use Rattle.hp_word.specs.RowRules.{row_place};
ghost use Rattle.hp_spmd.specs.Frames.{join_data, rows_read};
ghost use Rattle.hp_spmd.specs.Next.{Tells, lifted};
ghost use Rattle.hp_spmd.specs.RowParts.{IsJoined};
ghost use Rattle.hp_spmd.specs.Store.{data_of};

use crate::dist::Dist;
use crate::instr::{Join, Rows};
use crate::local::Local;
use crate::local::columns::{Ordered, add_others, column_of, put_ordered};
use crate::local::ordered::{columns_read, place_read};
use crate::local::words::cell_in;
use crate::store::Store;
use hp_kernels::joins::{KernelError, join_rows};
use hp_word::order::RowPlace;
use hp_word::place::{NoMemory, TrapKind};
use hp_word::sequence::Sequence;
use std::alloc::Global;

/// The cells of a column in the left rows of pairs, whose places count from 0.
fn left_cells(alloc: Global, cells: &[i64], pairs: &[RowPlace]) -> Result<Sequence<i64>, NoMemory>
    ensures { IfOk result (λ made. made ≡ map (λ p. word_at cells.now p.left) pairs.now) }
{
    let mut made = Vec::with_capacity(alloc, pairs.len())?;
    for pair in pairs {
        made.push(cell_in(cells, pair.left as usize))?;
    }
    Ok(Sequence::from_vec(made))
}

/// The same in the right rows.
fn right_cells(alloc: Global, cells: &[i64], pairs: &[RowPlace]) -> Result<Sequence<i64>, NoMemory>
    ensures { IfOk result (λ made. made ≡ map (λ p. word_at cells.now p.right) pairs.now) }
{
    let mut made = Vec::with_capacity(alloc, pairs.len())?;
    for pair in pairs {
        made.push(cell_in(cells, pair.right as usize))?;
    }
    Ok(Sequence::from_vec(made))
}

/// Adds columns in the left rows of pairs.
fn add_left(
    alloc: Global,
    made: &mut Vec<Sequence<i64>>,
    columns: &[&[i64]],
    pairs: &[RowPlace],
) -> Result<(), NoMemory>
    ensures { OnOk result (made.new.items ≡ made.old.items ++ map (λ cells. map (λ p. word_at cells p.left) pairs.now) (map (λ c. c.now) columns.now)) }
{
    for cells in columns {
        made.push(left_cells(alloc, cells, pairs)?)?;
    }
    Ok(())
}

/// Adds columns in the right rows of pairs.
fn add_right(
    alloc: Global,
    made: &mut Vec<Sequence<i64>>,
    columns: &[&[i64]],
    pairs: &[RowPlace],
) -> Result<(), NoMemory>
    ensures { OnOk result (made.new.items ≡ made.old.items ++ map (λ cells. map (λ p. word_at cells p.right) pairs.now) (map (λ c. c.now) columns.now)) }
{
    for cells in columns {
        made.push(right_cells(alloc, cells, pairs)?)?;
    }
    Ok(())
}

/// The left columns of pairs, then the right ones without the key.
fn joined_columns(
    alloc: Global,
    left: &[&[i64]],
    right: &[&[i64]],
    right_key: u32,
    pairs: &[RowPlace],
) -> Result<Vec<Sequence<i64>>, NoMemory>
    ensures { IfOk result (λ made. made.items ≡ map (λ cells. map (λ p. word_at cells p.left) pairs.now) (map (λ c. c.now) left.now) ++ map (λ cells. map (λ p. word_at cells p.right) pairs.now) (remove (map (λ c. c.now) right.now) right_key)) }
{
    let mut made = Vec::with_capacity(alloc, left.len())?;
    add_left(alloc, &mut made, left, pairs)?;
    let mut others = Vec::with_capacity(alloc, right.len())?;
    add_others(&mut others, right, right_key)?;
    add_right(alloc, &mut made, others.as_slice(), pairs)?;
    Ok(made)
}

/// Pairs of rows by their places in the whole.
fn pair_places(
    alloc: Global,
    store: &Store,
    dists: &Sequence<Dist>,
    left: &Rows,
    right: &Rows,
    pairs: &[RowPlace],
) -> Result<Sequence<RowPlace>, NoMemory>
    ensures { let l = rows_read dists.now store.now.number left.now (data_of store.now) in let r = rows_read dists.now store.now.number right.now (data_of store.now) in IfOk result (λ made. made ≡ map (λ p. row_place (l.place (p.left + 1)) (r.place (p.right + 1))) pairs.now) }
{
    let mut made = Vec::with_capacity(alloc, pairs.len())?;
    for pair in pairs {
        made.push(RowPlace {
            left: place_read(store, dists, left, pair.left),
            right: place_read(store, dists, right, pair.right),
        })?;
    }
    Ok(Sequence::from_vec(made))
}

/// The rows of a join; none where there are too many.
fn joined(store: &Store, dists: &Sequence<Dist>, join: &Join) -> Result<Option<Ordered>, NoMemory>
    ensures { IfOk result (λ made. IsJoined dists.now store.now.number join.now (data_of store.now) made) }
{
    let alloc = store.words.alloc();
    let left = columns_read(alloc, store, &join.left)?;
    let right = columns_read(alloc, store, &join.right)?;
    let (left, right) = (left.as_slice(), right.as_slice());
    let left_keys = column_of(left, join.left_key);
    match join_rows(alloc, left_keys, column_of(right, join.right_key)) {
        Err(KernelError::NoMemory) => Err(NoMemory),
        Err(KernelError::TooMany) => Ok(None),
        Ok(pairs) => {
            let pairs = pairs.as_slice();
            Ok(Some(Ordered {
                columns: joined_columns(alloc, left, right, join.right_key, pairs)?,
                places: pair_places(alloc, store, dists, &join.left, &join.right, pairs)?,
            }))
        }
    }
}

/// Makes columns of the pairs of rows with equal keys; `TooLong` where there are too many.
pub fn do_join(store: &mut Store, dists: &Sequence<Dist>, join: &Join) -> Result<Local, NoMemory>
    requires next { store.old.position + 1 < 2 ^ 32 }
    requires executed { store.old.executed < 2 ^ 64 - 1 }
    ensures told { IfOk result (λ l. Tells (lifted (join_data dists.now store.old.number join.now.to join.now.left join.now.left_key join.now.right join.now.right_key join.now.at (data_of store.old)) store.old) l store.old store.new) }
    ensures err { OnErr result (store.new ≡ store.old) }
    ensures number { store.new.number ≡ store.old.number }
    ensures ranks { store.new.ranks ≡ store.old.ranks }
{
    let Some(made) = joined(store, dists, join)? else {
        return Ok(Local::Trapped(join.at, TrapKind::TooLong));
    };
    put_ordered(store, &join.to, made)?;
    store.position += 1;
    Ok(Local::Moved)
}
