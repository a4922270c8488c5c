// What the code of each step hangs on: where the program's names stand, and how its arrays lie on the ranks.

ghost use Rattle.std.specs.Prelude.{◌≡◌, ℕ, ◌+◌, IfOk};
ghost use Rattle.std.specs.List.{list_all};
ghost use Rattle.hp_air.specs.Frames.{slot_at};
ghost use Rattle.hp_air.specs.Placed.{dist_at};
ghost use Rattle.hp_lowering.specs.Room.{room_of, part_word, start_word, spare};
ghost use Rattle.hp_parfor.specs.LoopMeaning.{is_moved, is_rep, is_var};

use hp_air::slot::Slot;
use hp_lattice::dist::Dist;
use hp_word::place::NoMemory;

/// The sum of a number of 32 bits and a count, where it has 32 bits itself. Programs are so small that it always has.
pub(crate) fn sum_of(number: u32, count: usize) -> Result<u32, NoMemory>
    ensures { IfOk result (λ sum. sum ≡ number + count) }
{
    match u32::try_from(count) {
        Ok(count) => number.checked_add(count).ok_or(NoMemory),
        Err(_) => Err(NoMemory),
    }
}

/// The slots of a program, how many words it has, and the distributions of its slots.
#[derive(Clone, Copy)]
pub(crate) struct Plan<'a> {
    pub slots: &'a [Slot],
    pub words: u32,
    pub dists: &'a [Dist],
}

impl Plan<'_> {
    /// How an array lies; one without a distribution counts as whole.
    pub fn dist(&self, array: u32) -> Dist
        ensures { result ≡ dist_at self.now.dists.now array }
    {
        match self.dists.get(array as usize) {
            Some(dist) => *dist,
            None => Dist::Rep,
        }
    }

    /// Whether an array is whole on each rank.
    pub fn is_whole(&self, array: u32) -> bool
        ensures { result ≡ is_rep (dist_at self.now.dists.now array) }
    {
        match self.dist(array) {
            Dist::Rep => true,
            Dist::Var | Dist::Block => false,
        }
    }

    /// Whether an array lies in pieces of any lengths.
    pub fn is_uneven(&self, array: u32) -> bool
        ensures { result ≡ is_var (dist_at self.now.dists.now array) }
    {
        match self.dist(array) {
            Dist::Var => true,
            Dist::Rep | Dist::Block => false,
        }
    }

    /// Whether all these arrays are whole on each rank.
    pub fn are_whole(&self, arrays: &[u32]) -> bool
        ensures { result ≡ list_all (λ k. is_rep (dist_at self.now.dists.now k)) arrays.now }
    {
        arrays.iter().all(|array| self.is_whole(*array))
    }

    /// Whether an array is moved to the pieces of another one.
    pub fn is_moved(&self, to: u32, array: u32) -> bool
        ensures { result ≡ is_moved (dist_at self.now.dists.now) to array }
    {
        array != to && self.is_uneven(array)
    }

    /// Whether a slot is a balanced copy.
    pub fn is_balanced(&self, slot: u32) -> bool
        ensures { result ≡ (slot_at self.now.slots.now slot).balanced }
    {
        match self.slots.get(slot as usize) {
            Some(found) => found.balanced,
            None => false,
        }
    }

    /// The array to which the input of a loop with this number is moved.
    pub fn spare(&self, input: u32) -> Result<u32, NoMemory>
        ensures { IfOk result (λ array. array ≡ spare (room_of self.now.slots.now self.now.words) input) }
    {
        sum_of(input, self.slots.len())
    }

    /// The word that holds the sum of a rank's own part.
    pub fn part_word(&self) -> u32
        ensures { result ≡ part_word (room_of self.now.slots.now self.now.words) }
    {
        self.words
    }

    /// The word that holds the sum of the parts before a rank's own one.
    pub fn start_word(&self) -> Result<u32, NoMemory>
        ensures { IfOk result (λ word. word ≡ start_word (room_of self.now.slots.now self.now.words)) }
    {
        sum_of(self.words, 1)
    }
}
