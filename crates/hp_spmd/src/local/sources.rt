// What a loop reads of a rank's store.

ghost use Rattle.hp_spmd.specs.LoopParts.{earlier_lets};
ghost use Rattle.hp_spmd.specs.Loops.{sight_at};
ghost use Rattle.hp_spmd.specs.Store.{data_of};

use crate::instr::{HaloFrom, Loop};
use crate::local::arrays::cells_at;
use crate::local::exchange::loose_at;
use crate::local::words::{item_or, word_at};
use crate::store::Store;
use hp_kernels::loops::reads::{Halo, Sources};

/// A store, and the loop that reads it.
#[derive(Drop)]
pub struct LoopSources<'a> {
    pub store: &'a Store,
    pub of: &'a Loop,
}

#[tactic(auto, unfolding(crate::specs::Loops::sight_at), using(crate::proofs::LoopSights::near_whole))]
impl Sources for LoopSources<'_> {
    ghost sight = { λ s i lets. sight_at s.of.now (data_of s.store.now) i lets };

    fn word(&self, k: u32) -> i64 {
        word_at(&self.store.words, k)
    }

    fn input(&self, k: u32) -> &[i64] {
        let array = item_or(&self.of.inputs, k as usize, 0);
        cells_at(&self.store.arrays, array)
    }

    fn halo(&self, k: u32) -> Halo<'_> {
        match item_or(&self.of.halos, k as usize, HaloFrom::Whole(0)) {
            HaloFrom::Loose(column, reach) => Halo {
                cells: loose_at(&self.store.loose, column),
                reach,
            },
            HaloFrom::Whole(array) => Halo {
                cells: cells_at(&self.store.arrays, array),
                reach: 0,
            },
        }
    }

    ghost reads_lets = { λ s i lets k. earlier_lets s.of.now (data_of s.store.now) i lets k };
}
