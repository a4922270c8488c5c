// The constructs of frames, but for joins, aggregates and sorts.

ghost use Rattle.std.specs.Prelude.{◌≡◌, ℤ, List, map, IfOk};
ghost use Rattle.hp_meaning.specs.FrameRules.{rows_value, framed, named_columns, tabled, filtered, changed};
ghost use Rattle.hp_meaning.specs.HeldValues.{looked};
ghost use Rattle.hp_meaning.specs.Outcomes.{Tells};
ghost use Rattle.hp_word.specs.RowRules.{filter_rows};
ghost use Rattle.std.specs.Option.{option_copied};

use crate::columns::{are_level, copied_name, rows_of};
use crate::held::Look;
use crate::lists::number_of;
use crate::seen::Stop;
use crate::value::{Column, Kind, Value};
use hp_kernels::filters::select;
use hp_word::name::Name;
use hp_word::place::{NoMemory, Place, TrapKind};
use hp_word::sequence::Sequence;
use hp_word::table::Table;
use std::alloc::Global;

/// `nrow(d)`
#[tactic(auto, unfolding(crate::specs::FrameRules::rows_value, crate::specs::Outcomes::halted))]
pub fn rows_value(a: Look) -> Result<Value, Stop>
    ensures { Tells (rows_value (looked a.entry)) result }
{
    let columns = a.frame()?;
    Ok(Value::Word(Kind::Number, number_of(rows_of(columns))?))
}

/// `DataFrame(c = a, d = b)`
#[tactic(auto, unfolding(crate::specs::FrameRules::framed, crate::specs::Outcomes::halted))]
pub fn framed(at: Place, columns: Sequence<Column>) -> Result<Value, Stop>
    ensures { Tells (framed at columns) result }
{
    if columns.is_empty() {
        return Err(Stop::Wrong);
    }
    if !are_level(columns.as_slice()) {
        return Err(Stop::trap(at, TrapKind::Mismatch));
    }
    Ok(Value::Frame(columns))
}

/// Columns of these names with a table's cells.
#[tactic(auto, unfolding(crate::specs::FrameRules::named_columns))]
fn named_columns(
    alloc: Global,
    names: &[&Name],
    table: &[Sequence<i64>],
) -> Result<Sequence<Column>, NoMemory>
    ensures { IfOk result (λ made. made ≡ named_columns (map (λ name. name.now.bytes) names.now) table.now) }
{
    let mut made = Sequence::new(alloc);
    for (i, name) in names.iter().enumerate() {
        if i < table.len() {
            made.push(Column {
                name: copied_name(alloc, name)?,
                cells: Sequence::from_slice(alloc, table[i].as_slice())?,
            })?;
        }
    }
    Ok(made)
}

/// `read_csv("f", :c, :d)`: the columns of a table by these names.
#[tactic(auto, unfolding(crate::specs::FrameRules::tabled, crate::specs::Outcomes::halted))]
pub fn tabled(alloc: Global, names: &[&Name], table: Option<&Table>) -> Result<Value, Stop>
    ensures { Tells (tabled (map (λ name. name.now.bytes) names.now) (option_copied table.entry)) result }
{
    let Some(table) = table else {
        return Err(Stop::Wrong);
    };
    if names.len() != table.columns.len() {
        return Err(Stop::Wrong);
    }
    let made = named_columns(alloc, names, table.columns.as_slice())?;
    Ok(Value::Frame(made))
}

/// The rows at which the mask is true.
fn kept_rows(alloc: Global, mask: &[i64], columns: &[Column]) -> Result<Sequence<Column>, NoMemory>
    ensures { IfOk result (λ made. made ≡ changed (filter_rows mask.now) columns.now) }
{
    let mut made = Sequence::new(alloc);
    for column in columns {
        made.push(Column {
            name: copied_name(alloc, &column.name)?,
            cells: Sequence::from_vec(select(alloc, mask, column.cells.as_slice())?),
        })?;
    }
    Ok(made)
}

/// `filter(d, m)`
#[tactic(auto, unfolding(crate::specs::FrameRules::filtered, crate::specs::Outcomes::halted))]
pub fn filtered(alloc: Global, at: Place, columns: &[Column], a: Look) -> Result<Value, Stop>
    ensures { Tells (filtered at columns.now (looked a.entry)) result }
{
    let mask = a.list_of(Kind::Truth)?;
    if mask.len() != rows_of(columns) {
        return Err(Stop::trap(at, TrapKind::Mismatch));
    }
    Ok(Value::Frame(kept_rows(alloc, mask, columns)?))
}
