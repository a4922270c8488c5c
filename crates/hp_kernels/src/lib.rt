//! Work on the rows of columns: the rows that a filter keeps, that a join pairs and that an aggregate groups, and rows
//! in their order; and products of rows with columns. Rows are found by a hash of their key. Places of rows count from 0.
//! And the loop of every form of the program, column by column.
#![tactic(auto)]

pub mod filters;
pub mod groups;
pub mod joins;
mod key_rows;
pub mod loops;
pub mod measures;
pub mod products;
pub mod sorting;
