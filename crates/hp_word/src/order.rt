// The orders of rows that joins and aggregates leave open.

use crate::sequence::Sequence;

/// One row of a result: the row places, from 1, that it was made from. Of an aggregate, `right` is 0.
#[derive(Clone, Copy, Debug, PartialEq, Eq, Hash)]
pub struct RowPlace {
    pub left: u64,
    pub right: u64,
}

/// The order of one join or aggregate, by its number among those that a script executed, from 1.
#[derive(Debug, Drop)]
pub struct Order {
    pub number: u64,
    pub places: Sequence<RowPlace>,
}

/// Orders of several joins and aggregates.
#[derive(Debug, Drop)]
pub struct Orders {
    pub list: Sequence<Order>,
}
