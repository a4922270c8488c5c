// What Group does to a store.

ghost use Rattle.std.specs.Prelude.{◌≡◌, ◌∷◌, ◌+◌, ◌-◌, ◌<◌, ◌^◌, map, IfOk, OnErr};
ghost use Rattle.hp_kernels.specs.Grouping.{AreGroupsOf};
ghost use Rattle.hp_word.specs.LoopRules.{word_at};
ghost use Rattle.hp_word.specs.RowRules.{column_at, firsts_from_0, group_keys, measured, row_place};
ghost use Rattle.hp_spmd.specs.Frames.{group_data, rows_read};
ghost use Rattle.hp_spmd.specs.Next.{Tells, lifted};
ghost use Rattle.hp_spmd.specs.RowParts.{IsGrouped};
ghost use Rattle.hp_spmd.specs.Store.{data_of};

use crate::dist::Dist;
use crate::instr::{Rows, Target};
use crate::local::Local;
use crate::local::columns::{Ordered, column_of, put_ordered};
use crate::local::ordered::{columns_read, place_read};
use crate::local::sorting::cells_at_places;
use crate::store::Store;
use hp_kernels::groups::{Groups, group_rows};
use hp_kernels::measures::measure_groups;
use hp_word::order::RowPlace;
use hp_word::place::NoMemory;
use hp_word::sequence::Sequence;
use hp_word::table::Measure;
use std::alloc::Global;

/// The key of each group, then what is measured of each.
fn grouped_columns(
    alloc: Global,
    columns: &[&[i64]],
    keys: &[i64],
    groups: &Groups,
    measures: &[Measure],
) -> Result<Vec<Sequence<i64>>, NoMemory>
    requires { AreGroupsOf keys.now groups.now }
    ensures { IfOk result (λ made. made.items ≡ map (word_at keys.now) (firsts_from_0 keys.now) ∷ map (λ m. map (measured m.kind keys.now (column_at m.column (map (λ c. c.now) columns.now))) (group_keys keys.now)) measures.now) }
{
    let mut made = Vec::with_capacity(alloc, measures.len())?;
    made.push(cells_at_places(alloc, groups.firsts.as_slice(), keys)?)?;
    for measure in measures {
        let cells = column_of(columns, measure.column);
        let column = measure_groups(alloc, measure.kind, keys, groups, cells)?;
        made.push(Sequence::from_vec(column))?;
    }
    Ok(made)
}

/// The first row of each group by its place in the whole.
fn first_places(
    alloc: Global,
    store: &Store,
    dists: &Sequence<Dist>,
    from: &Rows,
    firsts: &[u64],
) -> Result<Sequence<RowPlace>, NoMemory>
    ensures { let rows = rows_read dists.now store.now.number from.now (data_of store.now) in IfOk result (λ made. made ≡ map (λ first. row_place (rows.place (first + 1)) 0) firsts.now) }
{
    let mut made = Vec::with_capacity(alloc, firsts.len())?;
    for first in firsts {
        made.push(RowPlace {
            left: place_read(store, dists, from, *first),
            right: 0,
        })?;
    }
    Ok(Sequence::from_vec(made))
}

/// One row for each key.
fn grouped(
    store: &Store,
    dists: &Sequence<Dist>,
    from: &Rows,
    key: u32,
    measures: &[Measure],
) -> Result<Ordered, NoMemory>
    ensures { IfOk result (λ made. IsGrouped dists.now store.now.number from.now key measures.now (data_of store.now) made) }
{
    let alloc = store.words.alloc();
    let columns = columns_read(alloc, store, from)?;
    let columns = columns.as_slice();
    let keys = column_of(columns, key);
    let groups = group_rows(alloc, keys)?;
    Ok(Ordered {
        columns: grouped_columns(alloc, columns, keys, &groups, measures)?,
        places: first_places(alloc, store, dists, from, groups.firsts.as_slice())?,
    })
}

/// Makes columns of one row for each key, by the first place of the key.
pub fn do_group(
    store: &mut Store,
    dists: &Sequence<Dist>,
    to: &Target,
    from: &Rows,
    key: u32,
    measures: &Sequence<Measure>,
) -> Result<Local, NoMemory>
    requires next { store.old.position + 1 < 2 ^ 32 }
    requires executed { store.old.executed < 2 ^ 64 - 1 }
    ensures told { IfOk result (λ l. Tells (lifted (group_data dists.now store.old.number to.now from.now key measures.now (data_of store.old)) store.old) l store.old store.new) }
    ensures err { OnErr result (store.new ≡ store.old) }
    ensures number { store.new.number ≡ store.old.number }
    ensures ranks { store.new.ranks ≡ store.old.ranks }
{
    let made = grouped(store, dists, from, key, measures.as_slice())?;
    put_ordered(store, to, made)?;
    store.position += 1;
    Ok(Local::Moved)
}
