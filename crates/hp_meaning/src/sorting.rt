// Sorted frames.

ghost use Rattle.std.specs.Prelude.{◌≡◌, ◌∷◌, map, IfOk};
ghost use Rattle.hp_meaning.specs.FrameRules.{cells_of, without, picked, sorted_frame, sorted_value};
ghost use Rattle.hp_meaning.specs.HeldValues.{looked};
ghost use Rattle.hp_meaning.specs.Outcomes.{Tells};

use crate::columns::{column_of, copied_name, is_named, rows_of};
use crate::held::Look;
use crate::matrices::cell_at;
use crate::seen::Stop;
use crate::value::{Column, Value};
use hp_kernels::sorting::sort_by_columns;
use hp_word::place::NoMemory;
use hp_word::sequence::Sequence;
use std::alloc::Global;

/// The cells of the key, then those of the other columns from the first on.
#[tactic(auto, unfolding(crate::specs::FrameRules::without))]
fn key_first<'a>(
    alloc: Global,
    keys: &'a [i64],
    key: &[u8],
    columns: &'a [Column],
) -> Result<Vec<&'a [i64]>, NoMemory>
    ensures { IfOk result (λ made. map (λ c. c.now) made.items ≡ keys.now ∷ cells_of (without key.now columns.now)) }
{
    let mut made = Vec::new(alloc);
    made.push(keys)?;
    for column in columns {
        if !is_named(key, column) {
            made.push(column.cells.as_slice())?;
        }
    }
    Ok(made)
}

/// The cells at these places.
#[tactic(auto, unfolding(crate::specs::FrameRules::picked))]
fn picked(alloc: Global, places: &[u64], cells: &[i64]) -> Result<Sequence<i64>, NoMemory>
    ensures { IfOk result (λ made. made ≡ picked places.now cells.now) }
{
    let mut made = Sequence::new(alloc);
    for place in places {
        made.push(cell_at(cells, *place as usize))?;
    }
    Ok(made)
}

/// The rows of a frame by a key, whose cells are `keys`.
#[tactic(auto, unfolding(crate::specs::FrameRules::sorted_frame))]
fn sorted_frame(
    alloc: Global,
    key: &[u8],
    columns: &[Column],
    keys: &[i64],
) -> Result<Sequence<Column>, NoMemory>
    ensures { IfOk result (λ made. made ≡ sorted_frame key.now columns.now keys.now) }
{
    let by_key = key_first(alloc, keys, key, columns)?;
    let places = sort_by_columns(alloc, by_key.as_slice(), rows_of(columns))?;
    let mut made = Sequence::new(alloc);
    for column in columns {
        made.push(Column {
            name: copied_name(alloc, &column.name)?,
            cells: picked(alloc, places.as_slice(), column.cells.as_slice())?,
        })?;
    }
    Ok(made)
}

/// `sort(d, :k)`
#[tactic(auto, unfolding(crate::specs::FrameRules::sorted_value, crate::specs::Outcomes::halted))]
pub fn sorted_value(alloc: Global, key: &[u8], a: Look) -> Result<Value, Stop>
    ensures { Tells (sorted_value key.now (looked a.entry)) result }
{
    let columns = a.frame()?;
    let keys = column_of(key, columns)?;
    Ok(Value::Frame(sorted_frame(alloc, key, columns, keys.as_slice())?))
}
