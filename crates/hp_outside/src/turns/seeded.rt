// The order of turns that a seed gives.

ghost use Rattle.std.specs.Prelude.{◌≡◌, ◌<◌, ◌≤◌, ◌%◌, ℕ, Some, IfSome};
ghost use Rattle.hp_outside.specs.Counts.{counted, last_count};
ghost use Rattle.hp_outside.specs.Orders.{chosen, seeded, state_after, stepped};

use super::Turns;

/// The order of a seed: that of seed 0 is round robin, and that of any other is taken from the high bits of a number that
/// each turn steps on.
#[derive(Drop)]
pub struct Seeded {
    seed: u64,
    asked: u64,
    state: u64,
    ghost follows: { state ≡ state_after seed asked },
}

/// The next state.
#[tactic(auto, unfolding(crate::specs::Orders::stepped))]
fn stepped(state: u64) -> u64
    ensures { result ≡ stepped state }
{
    state
        .wrapping_mul(6_364_136_223_846_793_005)
        .wrapping_add(1_442_695_040_888_963_407)
}

/// The rank of a turn, by its state.
#[tactic(auto, unfolding(crate::specs::Orders::chosen))]
fn chosen(state: u64, ranks: u32) -> u32
    requires { 1 ≤ ranks }
    ensures among { result < ranks }
    ensures exact { result ≡ chosen state ranks }
{
    ((state >> 33) % u64::from(ranks)) as u32
}

/// The rank of a turn in rounds.
fn in_rounds(k: u64, ranks: u32) -> u32
    requires { 1 ≤ ranks }
    ensures among { result < ranks }
    ensures exact { result ≡ k % ranks }
{
    (k % u64::from(ranks)) as u32
}

impl Seeded {
    /// The order of seed 0.
    #[tactic(auto, using(crate::proofs::OrderLemmas::state_first))]
    pub fn new() -> Seeded
        ensures seed { result.seed ≡ 0 }
        ensures asked { result.asked ≡ 0 }
    {
        Seeded {
            seed: 0,
            asked: 0,
            state: 0,
        }
    }
}

impl Turns for Seeded {
    ghost seed = { λ it. it.seed };

    ghost asked = { λ it. it.asked };

    ghost named = { λ it s k ranks. Some (seeded s k ranks) };

    #[tactic(auto, using(crate::proofs::OrderLemmas::state_first))]
    fn start(&mut self, from: u64) {
        self.seed = from;
        self.asked = 0;
        self.state = from;
    }

    #[tactic(auto, using(crate::proofs::OrderLemmas::state_next, crate::proofs::OrderLemmas::zero_names, crate::proofs::OrderLemmas::other_names))]
    fn next(&mut self, ranks: u32) -> u32 {
        let next = stepped(self.state);
        let named = if self.seed == 0 {
            in_rounds(self.asked, ranks)
        } else {
            chosen(next, ranks)
        };
        if self.asked < u64::MAX {
            self.asked += 1;
            self.state = next;
        }
        named
    }
}
