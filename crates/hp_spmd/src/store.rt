// The state of one rank.

use crate::code::Code;
use crate::local::pieces::empty_arrays;
use crate::local::words::{no_columns, no_messages, repeated};
use hp_word::order::Orders;
use hp_word::place::NoMemory;
use hp_word::sequence::Sequence;
use hp_word::table::Message;
use std::alloc::Global;

/// A rank's piece of an array: how many rows it has (1 of a vector), where each rank's columns begin, and the
/// own cells, column by column. A replicated array has the cuts 0 and its length.
#[derive(Drop)]
pub struct Piece {
    pub rows: u64,
    pub cuts: Sequence<u64>,
    pub cells: Sequence<i64>,
}

/// The state of one rank: its number from 0 among `ranks`, the position of its next instruction, its words,
/// arrays and loose columns, the messages that it made and took, how many of them it has sent and got, how many
/// joins and aggregates it has executed, and the orders that it logged.
#[derive(Drop)]
pub struct Store {
    pub number: u32,
    pub ranks: u32,
    pub position: u32,
    pub words: Sequence<i64>,
    pub arrays: Sequence<Piece>,
    pub loose: Sequence<Sequence<i64>>,
    pub outbox: Sequence<Message>,
    pub inbox: Sequence<Message>,
    pub sent: u32,
    pub got: u32,
    pub executed: u64,
    pub log: Orders,
}

impl Store {
    ghost use Rattle.std.specs.Prelude.{◌≡◌, ◌≤◌, ◌<◌, IfOk};
    ghost use Rattle.hp_spmd.specs.Store.{first_store};

    /// The store that a rank begins with: all words 0, and all arrays and messages empty.
    #[tactic(auto, unfolding(crate::specs::Store::first_store))]
    pub fn new(alloc: Global, code: &Code, number: u32, ranks: u32) -> Result<Store, NoMemory>
        requires some { 1 ≤ ranks }
        requires few { ranks ≤ 32 }
        requires among { number < ranks }
        ensures { IfOk result (λ x. x ≡ first_store code.now number ranks) }
    {
        Ok(Store {
            number,
            ranks,
            position: 0,
            words: repeated(alloc, u64::from(code.words), 0)?,
            arrays: empty_arrays(alloc, &code.arrays, number, ranks)?,
            loose: no_columns(alloc, code.loose)?,
            outbox: no_messages(alloc, ranks)?,
            inbox: no_messages(alloc, ranks)?,
            sent: 0,
            got: 0,
            executed: 0,
            log: Orders {
                list: Sequence::new(alloc),
            },
        })
    }
}
