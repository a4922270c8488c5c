// An order of turns that is a list in memory, again and again.

ghost use Rattle.std.specs.Prelude.{◌≡◌, ◌<◌, ◌≤◌, ℕ, Some, IfSome};
ghost use Rattle.hp_outside.specs.Counts.{counted, last_count};
ghost use Rattle.hp_outside.specs.Orders.{cycled};

use super::Turns;
use crate::counts::counted;
use hp_word::sequence::Sequence;

/// The numbers of a list, modulo the ranks, again and again; rank 0 where the list is empty.
#[derive(Drop)]
pub struct MemTurns {
    list: Sequence<u32>,
    seed: u64,
    asked: u64,
}

/// The number of a list that comes after so many others.
fn cycled(list: &[u32], k: u64, ranks: u32) -> u32
    requires { 1 ≤ ranks }
    ensures { result ≡ cycled list.now k ranks }
{
    if list.is_empty() {
        return 0;
    }
    let at = (k % list.len() as u64) as usize;
    list[at] % ranks
}

impl MemTurns {
    /// The order of a list.
    pub fn new(list: Vec<u32>) -> MemTurns
        ensures list { result.list ≡ list.items }
        ensures seed { result.seed ≡ 0 }
        ensures asked { result.asked ≡ 0 }
    {
        MemTurns {
            list: Sequence::from_vec(list),
            seed: 0,
            asked: 0,
        }
    }
}

impl Turns for MemTurns {
    ghost seed = { λ it. it.seed };

    ghost asked = { λ it. it.asked };

    ghost named = { λ it s k ranks. Some (cycled it.list k ranks) };

    fn start(&mut self, from: u64) {
        self.seed = from;
        self.asked = 0;
    }

    fn next(&mut self, ranks: u32) -> u32 {
        let named = cycled(self.list.as_slice(), self.asked, ranks);
        self.asked = counted(self.asked);
        named
    }
}
