// Programs with loops.

ghost use Rattle.std.specs.Prelude.{◌<◌, ◌^◌, IsTrue};
ghost use Rattle.hp_air.specs.Kept.{are_slots};
ghost use Rattle.hp_parfor.specs.Parts.{program_of};
ghost use Rattle.hp_parfor.specs.KeptParts.{are_parts, parts_size, parts_names};

use crate::parfor::Step;
use hp_air::slot::Slot;
use hp_word::sequence::Sequence;
use sqlite_items::Items;

/// A program with loops: its slots, how many words it has, and its steps. What a step names is there; an operation writes
/// and reads frames as it asks for, and a loop writes arrays that are frames by themselves; it is of fewer than 2^26 steps
/// with their arrays, and of fewer than 2^31 names.
#[derive(Drop)]
pub struct Parfors {
    pub slots: Sequence<Slot>,
    pub words: u32,
    pub body: Items<Step>,
    pub ghost in_order: { IsTrue (are_slots slots) },
    pub ghost kept: { IsTrue (are_parts slots words (program_of body)) },
    pub ghost small: { parts_size (program_of body) < 2 ^ 26 },
    pub ghost few_names: { parts_names slots words (program_of body) < 2 ^ 31 },
}
