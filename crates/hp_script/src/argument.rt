// What the arguments of a call are to the rules.

use crate::typed::Shape;
use hp_word::name::Name;

/// An argument of a call, by what the rules see of it.
#[derive(Debug, Drop)]
pub enum Argument {
    /// An expression, by the type of its value.
    Value(Shape),
    /// Two numbers, the first and the last of a range.
    Interval,
    /// A lambda, by the type of what it makes.
    Body(Shape),
    /// A text where one is meant.
    Text(Name),
    /// The name of a column where one is meant.
    Column(Name),
    /// A name and the type of the value that it is given.
    Given(Name, Shape),
    /// A name that is given to a measure of `aggregate`.
    Measure(Name),
    /// What fits no call.
    Misfit,
}
