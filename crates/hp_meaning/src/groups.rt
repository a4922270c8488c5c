// Aggregates of frames.

ghost use Rattle.std.specs.Prelude.{◌≡◌, List, map, IfOk, IfErr};
ghost use Rattle.hp_kernels.specs.Grouping.{AreGroupsOf};
ghost use Rattle.hp_meaning.specs.FrameRules.{Measured, cells_for, measure_column, grouped_rows, grouped_keys, grouped};
ghost use Rattle.hp_meaning.specs.HeldValues.{looked, measured_in, Finds};
ghost use Rattle.hp_meaning.specs.Outcomes.{Gives, Tells, ComesTo};
ghost use Rattle.hp_meaning.specs.KeyedRows.{AreRows, first_place};
ghost use Rattle.hp_word.specs.RowRules.{groups, measures_by_left};

use crate::columns::{column_of, copied_name};
use crate::held::Look;
use crate::joins::{by_left, place_of};
use crate::orders::order_taken;
use crate::seen::{Met, Stop};
use crate::value::{Column, Value};
use hp_kernels::groups::{Groups, group_rows};
use hp_kernels::measures::measure_groups;
use hp_word::name::Name;
use hp_word::order::{Order, RowPlace};
use hp_word::place::NoMemory;
use hp_word::sequence::Sequence;
use hp_word::table::MeasureKind;
use std::alloc::Global;

/// A measure of an aggregate: its name, what it works out, and the column that it is of, which a count has not.
#[derive(Clone, Copy)]
pub struct Wanted<'a> {
    pub name: &'a Name,
    pub kind: MeasureKind,
    pub of_it: &'a [u8],
}

/// First rows of groups by their places from 1.
fn places_of(alloc: Global, firsts: &[u64]) -> Result<Sequence<RowPlace>, Stop>
    ensures ok { IfOk result (λ made. made ≡ map first_place firsts.now) }
    ensures err { IfErr result (λ e. e ≡ Stop.NoMemory) }
{
    let mut made = Sequence::new(alloc);
    for first in firsts {
        made.push(RowPlace {
            left: place_of(*first)?,
            right: 0,
        })?;
    }
    Ok(made)
}

/// The first place of each group, from the first group on.
fn first_places(alloc: Global, keys: &[i64], found: &Groups) -> Result<Sequence<RowPlace>, Stop>
    requires { AreGroupsOf keys.now found.now }
    ensures ok { IfOk result (λ made. made ≡ groups keys.now) }
    ensures err { IfErr result (λ e. e ≡ Stop.NoMemory) }
{
    places_of(alloc, found.firsts.as_slice())
}

/// A measure of the group of each place.
#[tactic(auto, unfolding(hp_word::specs::RowRules::measures_by_left))]
fn measures_by_left(
    alloc: Global,
    kind: MeasureKind,
    keys: &[i64],
    groups: &Groups,
    cells: &[i64],
    places: &[RowPlace],
) -> Result<Sequence<i64>, NoMemory>
    requires grouped { AreGroupsOf keys.now groups.now }
    requires rows { AreRows keys.now places.now }
    ensures { IfOk result (λ made. made ≡ measures_by_left kind keys.now cells.now places.now) }
{
    let all = measure_groups(alloc, kind, keys, groups, cells)?;
    let mut made = Sequence::new(alloc);
    for p in places {
        let row = p.left.saturating_sub(1) as usize;
        let group = groups.group_of[row] as usize;
        made.push(all[group])?;
    }
    Ok(made)
}

/// The cells that a measure is of; for a count they are the keys.
fn cells_for<'a>(
    kind: MeasureKind,
    of_it: &[u8],
    columns: &'a [Column],
    keys: &'a [i64],
) -> Result<&'a [i64], Stop>
    ensures { Finds (λ cells. cells.now) (cells_for kind of_it.now columns.now keys.now) result }
{
    match kind {
        MeasureKind::Count => Ok(keys),
        _ => {
            let cells = column_of(of_it, columns)?;
            Ok(cells.as_slice())
        }
    }
}

/// The column of a measure.
#[tactic(auto, unfolding(crate::specs::FrameRules::measure_column, crate::specs::Outcomes::halted))]
fn measure_column(
    alloc: Global,
    columns: &[Column],
    keys: &[i64],
    groups: &Groups,
    places: &[RowPlace],
    measure: Wanted,
) -> Result<Column, Stop>
    requires grouped { AreGroupsOf keys.now groups.now }
    requires rows { AreRows keys.now places.now }
    ensures { Tells (measure_column columns.now keys.now places.now (measured_in measure.entry)) result }
{
    let cells = cells_for(measure.kind, measure.of_it, columns, keys)?;
    Ok(Column {
        name: copied_name(alloc, measure.name)?,
        cells: measures_by_left(alloc, measure.kind, keys, groups, cells, places)?,
    })
}

/// The key of each group, then its measures.
#[tactic(auto, unfolding(crate::specs::FrameRules::grouped_rows, crate::specs::Outcomes::halted))]
fn grouped_rows(
    alloc: Global,
    key: &[u8],
    columns: &[Column],
    keys: &[i64],
    groups: &Groups,
    measures: &[Wanted],
    places: &[RowPlace],
) -> Result<Value, Stop>
    requires grouped { AreGroupsOf keys.now groups.now }
    requires rows { AreRows keys.now places.now }
    ensures { Tells (grouped_rows key.now columns.now keys.now (map measured_in measures.now) places.now) result }
{
    let mut made = Sequence::new(alloc);
    made.push(Column {
        name: Name::of(alloc, key)?,
        cells: by_left(alloc, keys, places)?,
    })?;
    for measure in measures {
        made.push(measure_column(alloc, columns, keys, groups, places, *measure)?)?;
    }
    Ok(Value::Frame(made))
}

/// The aggregate of a frame by these keys.
#[tactic(auto, unfolding(crate::specs::Outcomes::stopped))]
fn grouped_keys(
    alloc: Global,
    orders: &[Order],
    key: &[u8],
    columns: &[Column],
    measures: &[Wanted],
    keys: &[i64],
    met: &mut Met,
) -> Result<Value, Stop>
    ensures { ComesTo (grouped_keys orders.now key.now columns.now (map measured_in measures.now) keys.now met.old) result met.new }
{
    let groups = group_rows(alloc, keys)?;
    let plain = first_places(alloc, keys, &groups)?;
    let number = met.next_number()?;
    let taken = order_taken(alloc, number, orders, plain.as_slice())?;
    let made = grouped_rows(alloc, key, columns, keys, &groups, measures, taken.places)?;
    met.execute(taken.is_bad)?;
    Ok(made)
}

/// `aggregate(d, :k, c = f, e = g)`
#[tactic(auto, unfolding(crate::specs::FrameRules::grouped, crate::specs::Outcomes::stopped))]
pub fn grouped(
    alloc: Global,
    orders: &[Order],
    key: &[u8],
    measures: &[Wanted],
    a: Look,
    met: &mut Met,
) -> Result<Value, Stop>
    ensures { ComesTo (grouped orders.now key.now (map measured_in measures.now) (looked a.entry) met.old) result met.new }
{
    let columns = a.frame()?;
    let keys = column_of(key, columns)?.as_slice();
    grouped_keys(alloc, orders, key, columns, measures, keys, met)
}
