// The statements that have a meaning so far, each by what it asks for.

use hp_word::name::Name;
use hp_word::place::Place;
use hp_word::sequence::Sequence;

/// A statement of one of the forms that are built.
#[derive(Drop)]
pub enum Line {
    /// `NAME = fill(VALUE, COUNT)`, with the place of the call.
    Fill(Name, Place, i64, i64),
    /// `println(sum(NAME))`.
    PrintSum(Name),
    /// `NAME = NAME .+ NAME`, with the place of the sign `.+`: the name that is assigned, and the two that are read.
    AddArrays(Name, Place, Name, Name),
    /// `NAME = NAME .+ NUMBER`, with the place of the sign `.+`: the name that is assigned, and the one that is read.
    AddNumber(Name, Place, Name, i64),
}

/// The statements of a script that are all of these forms, in their order.
#[derive(Drop)]
pub struct Lines {
    pub list: Sequence<Line>,
}
