// A program for all ranks.

ghost use Rattle.std.specs.Prelude.{◌<◌, ◌^◌, length, IsTrue};
ghost use Rattle.hp_spmd.specs.Names.{ends_in_halt, names_within, targets_within};

use crate::dist::Dist;
use crate::instr::Instr;
use hp_word::sequence::Sequence;

/// A program for all ranks: its instructions, how many scalar words it has, how each of its arrays lies on the
/// ranks, and how many loose columns it has. It has fewer than 2^32 instructions, the last one is Halt, and what
/// they name is within its counts: words, arrays, loose columns, and the instructions to which they jump.
#[derive(Drop)]
pub struct Code {
    pub list: Sequence<Instr>,
    pub words: u32,
    pub arrays: Sequence<Dist>,
    pub loose: u32,
    pub ghost small: { length list < 2 ^ 32 },
    pub ghost ends: { IsTrue (ends_in_halt list) },
    pub ghost within: { IsTrue (names_within words (length arrays) loose list) },
    pub ghost targets: { IsTrue (targets_within (length list) list) },
}
