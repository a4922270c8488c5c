// The columns of the frames that calls give.

ghost use Rattle.std.specs.Prelude.{◌≡◌, ◌++◌, [], ◌∷◌, IfOk, OnOk};
ghost use Rattle.std.specs.Option.{option_map};
ghost use Rattle.hp_script.specs.declared.typed.Shape.TheVariants.{Frame};
ghost use Rattle.hp_types.specs.Calls.{frame_first, column_first, same_columns};
ghost use Rattle.hp_script.specs.Results.{read_result, join_result, aggregate_result, given_names, column_names, measure_names, without};

use crate::copied::add_columns;
use hp_script::argument::Argument;
use hp_script::columns::{ColumnName, Columns};
use hp_script::typed::Shape;
use hp_word::name::Name;
use hp_word::place::NoMemory;
use hp_word::sequence::Sequence;
use std::alloc::Global;

/// The names with one more.
fn with_name(
    alloc: Global,
    mut names: Sequence<ColumnName>,
    name: &Name,
) -> Result<Sequence<ColumnName>, NoMemory>
    ensures { IfOk result (λ more. more ≡ names ++ name.now ∷ []) }
{
    names.push(ColumnName::of(alloc, name)?)?;
    Ok(names)
}

/// The names of the columns, where all arguments are given arrays of numbers.
pub fn given_names(
    alloc: Global,
    arguments: &[Argument],
) -> Result<Option<Sequence<ColumnName>>, NoMemory>
    ensures { IfOk result (λ names. names ≡ given_names arguments.now) }
{
    let mut names = Sequence::new(alloc);
    for argument in arguments {
        match argument {
            Argument::Given(name, Shape::Ints) => names = with_name(alloc, names, name)?,
            _ => return Ok(None),
        }
    }
    Ok(Some(names))
}

/// The names, where all arguments are names of columns.
fn column_names(
    alloc: Global,
    arguments: &[Argument],
) -> Result<Option<Sequence<ColumnName>>, NoMemory>
    ensures { IfOk result (λ names. names ≡ column_names arguments.now) }
{
    let mut names = Sequence::new(alloc);
    for argument in arguments {
        match argument {
            Argument::Column(name) => names = with_name(alloc, names, name)?,
            _ => return Ok(None),
        }
    }
    Ok(Some(names))
}

/// The names behind these, where all arguments are measures.
fn measure_names(
    alloc: Global,
    first: &Name,
    arguments: &[Argument],
) -> Result<Option<Sequence<ColumnName>>, NoMemory>
    ensures { IfOk result (λ names. names ≡ option_map (λ rest. first.now ∷ rest) (measure_names arguments.now)) }
{
    let mut names = with_name(alloc, Sequence::new(alloc), first)?;
    for argument in arguments {
        match argument {
            Argument::Measure(name) => names = with_name(alloc, names, name)?,
            _ => return Ok(None),
        }
    }
    Ok(Some(names))
}

/// Adds the columns but for the key.
fn add_without(
    to: &mut Sequence<ColumnName>,
    key: &Name,
    columns: &[ColumnName],
) -> Result<(), NoMemory>
    ensures { OnOk result (to.new ≡ to.old ++ without key.now columns.now) }
{
    for column in columns {
        if key.bytes.as_slice() != column.name().bytes.as_slice() {
            to.push(column.shared()?)?;
        }
    }
    Ok(())
}

/// The columns of the first argument, where it is a frame, and the arguments behind it.
fn frame_first(arguments: &[Argument]) -> Option<(&Columns, &[Argument])>
    ensures { option_map (λ both. (both.0.now, both.1.now)) result ≡ frame_first arguments.now }
{
    let (first, rest) = arguments.split_first()?;
    match first {
        Argument::Value(Shape::Frame(columns)) => Some((columns, rest)),
        _ => None,
    }
}

/// The name of the first argument, where it names a column, and the arguments behind it.
fn column_first(arguments: &[Argument]) -> Option<(&Name, &[Argument])>
    ensures { option_map (λ both. (both.0.now, both.1.now)) result ≡ column_first arguments.now }
{
    let (first, rest) = arguments.split_first()?;
    match first {
        Argument::Column(name) => Some((name, rest)),
        _ => None,
    }
}

/// The result of `join`.
pub fn join_result(
    alloc: Global,
    arguments: &[Argument],
) -> Result<Option<Sequence<ColumnName>>, NoMemory>
    ensures { IfOk result (λ names. option_map Frame names ≡ join_result arguments.now) }
{
    let Some((left, rest)) = frame_first(arguments) else {
        return Ok(None);
    };
    let Some((right, rest)) = frame_first(rest) else {
        return Ok(None);
    };
    let Some((key, rest)) = column_first(rest) else {
        return Ok(None);
    };
    if !rest.is_empty() {
        return Ok(None);
    }
    let mut columns = Sequence::new(alloc);
    add_columns(&mut columns, left.as_slice())?;
    add_without(&mut columns, key, right.as_slice())?;
    Ok(Some(columns))
}

/// The result of `aggregate`.
pub fn aggregate_result(
    alloc: Global,
    arguments: &[Argument],
) -> Result<Option<Sequence<ColumnName>>, NoMemory>
    ensures { IfOk result (λ names. option_map Frame names ≡ aggregate_result arguments.now) }
{
    let Some((_, rest)) = frame_first(arguments) else {
        return Ok(None);
    };
    let Some((key, measures)) = column_first(rest) else {
        return Ok(None);
    };
    measure_names(alloc, key, measures)
}

/// The columns of the first argument, where it is a frame and one argument stands behind it that is a mask
/// for `filter` and the name of a column for `sort`.
pub fn same_columns(is_sort: bool, arguments: &[Argument]) -> Result<Option<Columns>, NoMemory>
    ensures { IfOk result (λ names. option_map Frame names ≡ same_columns is_sort arguments.now) }
{
    let Some((columns, rest)) = frame_first(arguments) else {
        return Ok(None);
    };
    let fits = match rest.first() {
        Some(Argument::Column(_)) => is_sort && rest.len() == 1,
        Some(Argument::Value(Shape::Bools)) => !is_sort && rest.len() == 1,
        _ => false,
    };
    if !fits {
        return Ok(None);
    }
    Ok(Some(columns.shared()?))
}

/// The result of `read_csv`.
pub fn read_result(
    alloc: Global,
    arguments: &[Argument],
) -> Result<Option<Sequence<ColumnName>>, NoMemory>
    ensures { IfOk result (λ names. option_map Frame names ≡ read_result arguments.now) }
{
    match arguments.split_first() {
        Some((Argument::Text(_), columns)) => column_names(alloc, columns),
        _ => Ok(None),
    }
}
