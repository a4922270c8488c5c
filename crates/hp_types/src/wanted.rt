// What is meant where an argument of a call stands.

ghost use Rattle.std.specs.Prelude.{◌≡◌};
ghost use Rattle.std.specs.List.{list_all};
ghost use Rattle.std.specs.Option.{option_map};
ghost use Rattle.hp_script.specs.Scope.{has_column};
ghost use Rattle.hp_script.specs.declared.function.Function.TheVariants as functions;
ghost use Rattle.hp_script.specs.Typing.{wanted, frames_among, columns_for_mask};
ghost use Rattle.hp_types.specs.Known.{wanted_seen};

use crate::before::{Before, CallSoFar};
use crate::scope::{ParameterRole, has_column};
use hp_script::argument::Argument;
use hp_script::columns::ColumnName;
use hp_script::function::Function;
use hp_script::typed::Shape;

/// What is meant where an argument stands.
#[derive(Clone, Copy)]
pub enum Meant<'a> {
    Value,
    /// `a:b`
    Interval,
    /// A lambda with such a parameter.
    Lambda(ParameterRole),
    Text,
    /// The name of a column that each frame among these arguments has.
    Column(&'a [Argument]),
    /// A name with a value.
    Given,
    /// A name with a measure of a column that each frame among these arguments has.
    Measure(&'a [Argument]),
    /// The call fits already nothing.
    Nothing,
}

/// What `map` wants behind these arguments: its lambda is tested behind its array.
#[tactic(auto, unfolding(hp_script::specs::Typing::wanted))]
fn wanted_by_map<'a>(before: &'a [Argument]) -> Meant<'a>
    ensures { wanted_seen result ≡ wanted functions.Map before.now }
{
    match before.first() {
        None => Meant::Value,
        Some(Argument::Value(Shape::Ints)) => Meant::Lambda(ParameterRole::Number),
        Some(Argument::Value(Shape::Bools)) => Meant::Lambda(ParameterRole::Truth),
        Some(_) => Meant::Nothing,
    }
}

/// What `aggregate` wants behind these arguments.
#[tactic(auto, unfolding(hp_script::specs::Typing::wanted))]
fn wanted_by_aggregate<'a>(before: &'a [Argument]) -> Meant<'a>
    ensures { wanted_seen result ≡ wanted functions.Aggregate before.now }
{
    if before.is_empty() {
        Meant::Value
    } else if before.len() == 1 {
        Meant::Column(before)
    } else {
        Meant::Measure(&before[..1])
    }
}

/// What a call wants behind its arguments that are tested so far.
#[tactic(auto, unfolding(hp_script::specs::Typing::wanted))]
pub fn wanted_by<'a>(call: &CallSoFar<'a>) -> Meant<'a>
    ensures { wanted_seen result ≡ wanted call.now.function call.now.before.now }
{
    let before = call.before.as_slice();
    match call.function {
        Function::Map => wanted_by_map(before),
        Function::Aggregate => wanted_by_aggregate(before),
        Function::Stencil if before.is_empty() => Meant::Lambda(ParameterRole::Window),
        Function::Collect => Meant::Interval,
        Function::DataFrame => Meant::Given,
        Function::ReadCsv if before.is_empty() => Meant::Text,
        Function::ReadCsv => Meant::Column(&before[..0]),
        Function::Join if before.len() >= 2 => Meant::Column(&before[..2]),
        Function::Sort if !before.is_empty() => Meant::Column(&before[..1]),
        _ => Meant::Value,
    }
}

/// Whether each frame among these arguments has a column.
pub fn known_in(frames: &[Argument], column: &[u8]) -> bool
    ensures { result ≡ list_all (has_column column.now) (frames_among frames.now) }
{
    for argument in frames {
        if let Argument::Value(Shape::Frame(columns)) = argument {
            if !has_column(columns.as_slice(), column) {
                return false;
            }
        }
    }
    true
}

/// The columns that the second argument of a filter sees, by the first.
pub fn columns_for_mask(before: &Before) -> Option<&[ColumnName]>
    ensures { option_map (λ columns. columns.now) result ≡ columns_for_mask before.now }
{
    match before.as_slice().first() {
        Some(Argument::Value(Shape::Frame(columns))) => Some(columns.as_slice()),
        _ => None,
    }
}
