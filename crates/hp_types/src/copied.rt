// Copies of types, which share their columns.

ghost use Rattle.std.specs.Prelude.{◌≡◌, ◌++◌, IfOk, OnOk};

use hp_script::columns::ColumnName;
use hp_script::typed::Shape;
use hp_word::place::NoMemory;
use hp_word::sequence::Sequence;
use std::alloc::Global;

/// Adds columns.
pub fn add_columns(to: &mut Sequence<ColumnName>, columns: &[ColumnName]) -> Result<(), NoMemory>
    ensures { OnOk result (to.new ≡ to.old ++ columns.now) }
{
    for column in columns {
        to.push(column.shared()?)?;
    }
    Ok(())
}

/// A copy of a type, with the same columns.
pub fn copied(shape: &Shape) -> Result<Shape, NoMemory>
    ensures { IfOk result (λ copy. copy ≡ shape.now) }
{
    match shape {
        Shape::Int => Ok(Shape::Int),
        Shape::Bool => Ok(Shape::Bool),
        Shape::Ints => Ok(Shape::Ints),
        Shape::Bools => Ok(Shape::Bools),
        Shape::Matrix => Ok(Shape::Matrix),
        Shape::Frame(columns) => Ok(Shape::Frame(columns.shared()?)),
    }
}
