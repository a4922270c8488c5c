// How often places stand in a list, found by a hash of the place.

ghost use Rattle.std.specs.Prelude.{◌≡◌, IfOk, IfErr, OnOk};
ghost use Rattle.hp_meaning.specs.PlaceCounts.{times_held, CountsOf, AddsPlace};

use crate::seen::Stop;
use hp_word::order::RowPlace;
use indexmap::IndexMap;
use std::alloc::Global;

/// How often each place stands in a list.
#[derive(Drop)]
pub struct PlaceCounts {
    counts: IndexMap<RowPlace, u64>,
}

impl PlaceCounts {
    /// How often each place stands in this list.
    pub fn of(alloc: Global, places: &[RowPlace]) -> Result<PlaceCounts, Stop>
        ensures ok { IfOk result (CountsOf places.now) }
        ensures err { IfErr result (λ e. e ≡ Stop.NoMemory) }
    {
        let mut made = PlaceCounts {
            counts: IndexMap::new(alloc),
        };
        for place in places {
            made.add(*place)?;
        }
        Ok(made)
    }

    /// Counts a place once more.
    #[tactic(auto, unfolding(crate::specs::PlaceCounts::times_held))]
    fn add(&mut self, place: RowPlace) -> Result<(), Stop>
        ensures ok { OnOk result (AddsPlace place self.old self.new) }
        ensures err { IfErr result (λ e. e ≡ Stop.NoMemory) }
    {
        let Some(times) = self.times(place).checked_add(1) else {
            return Err(Stop::NoMemory);
        };
        self.counts.insert(place, times)?;
        Ok(())
    }

    /// How often a place stands in the list.
    #[tactic(auto, unfolding(crate::specs::PlaceCounts::times_held))]
    pub fn times(&self, place: RowPlace) -> u64
        ensures { result ≡ times_held self.now place }
    {
        match self.counts.get(&place) {
            Some(times) => *times,
            None => 0,
        }
    }
}
