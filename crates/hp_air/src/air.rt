// Programs of the array IR.

ghost use Rattle.std.specs.Prelude.{◌<◌, ◌^◌, IsTrue};
ghost use Rattle.hp_air.specs.Nodes.{program_of};
ghost use Rattle.hp_air.specs.Kept.{are_slots, are_kept, size_of, names_of};

use crate::node::Node;
use crate::slot::Slot;
use hp_word::sequence::Sequence;
use sqlite_items::Items;

/// A program of the array IR: its slots, how many words it has, and its steps. What an operation names is there; what it
/// writes and reads are frames as it asks for; it is of fewer than 2^24 steps with their arrays, and of fewer than 2^30
/// names.
#[derive(Debug, Drop)]
pub struct Air {
    pub slots: Sequence<Slot>,
    pub words: u32,
    pub body: Items<Node>,
    pub ghost in_order: { IsTrue (are_slots slots) },
    pub ghost kept: { IsTrue (are_kept slots words (program_of body)) },
    pub ghost small: { size_of (program_of body) < 2 ^ 24 },
    pub ghost few_names: { names_of slots words (program_of body) < 2 ^ 30 },
}
