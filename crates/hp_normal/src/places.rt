// The places of names and of numbers in lists, found by a hash.

ghost use Rattle.std.specs.Prelude.{◌≡◌, ◌==◌, ℕ, List, cond, bytes_eq, nat_eq, position, unwrap_or, Some, IfOk, OnOk};
ghost use Rattle.std.specs.List.{position_or_len};
ghost use Rattle.indexmap.specs.IndexMap.{get};
ghost use Rattle.hp_normal.specs.PlacesFound.{place_in, HasNames, HasNumbers};

use hp_script::typed::Var;
use hp_word::place::NoMemory;
use indexmap::IndexMap;
use std::alloc::Global;
use std::marker::Model;

/// Notes the place of a name, unless an earlier one is held.
pub fn note_name(
    places: &mut IndexMap<Vec<u8>, usize>,
    alloc: Global,
    name: &[u8],
    place: usize,
) -> Result<(), NoMemory>
    ensures { OnOk result ((x : List ℕ) → place_in places.new.entries x ≡ cond (bytes_eq x name.now) (Some (unwrap_or (place_in places.old.entries x) place)) (place_in places.old.entries x)) }
{
    if !places.contains_key(name) {
        places.insert(Vec::from_slice(alloc, name)?, place)?;
    }
    Ok(())
}

/// The place of each name among variables.
pub fn places_of_vars(alloc: Global, vars: &[Var]) -> Result<IndexMap<Vec<u8>, usize>, NoMemory>
    ensures { IfOk result (λ places. HasNames vars.now places.entries) }
{
    let mut places = IndexMap::new(alloc);
    for (place, var) in vars.iter().enumerate() {
        note_name(&mut places, alloc, var.name.bytes.as_slice(), place)?;
    }
    Ok(places)
}

/// Notes the place of a number, unless an earlier one is held.
fn note_number(places: &mut IndexMap<u32, usize>, number: u32, place: usize) -> Result<(), NoMemory>
    ensures { OnOk result ((n : ℕ) → get nat_eq places.new n ≡ cond (number == n) (Some (unwrap_or (get nat_eq places.old number) place)) (get nat_eq places.old n)) }
{
    if let Some(_) = places.get(&number) {
        return Ok(());
    }
    places.insert(number, place)?;
    Ok(())
}

/// The place of each of some numbers.
fn places_of_numbers(alloc: Global, numbers: &[u32]) -> Result<IndexMap<u32, usize>, NoMemory>
    ensures { IfOk result (λ places. HasNumbers numbers.now (get nat_eq places)) }
{
    let mut places = IndexMap::new(alloc);
    for (place, number) in numbers.iter().enumerate() {
        note_number(&mut places, *number, place)?;
    }
    Ok(places)
}

/// Expressions by their numbers, each found by it. A contract sees the list of the numbers.
#[derive(Drop)]
pub struct Numbers {
    list: Vec<u32>,
    places: IndexMap<u32, usize>,
}

impl Model for Numbers {
    ghost use Rattle.std.specs.Prelude.{ℕ, List, nat_eq};
    ghost use Rattle.indexmap.specs.IndexMap.{get};
    ghost use Rattle.hp_normal.specs.PlacesFound.{HasNumbers};

    ghost Value = { List ℕ };

    ghost view = { λ it. it.list.items };

    ghost invariant = { λ it. HasNumbers it.list.items (get nat_eq it.places) };
}

impl Numbers {
    /// These numbers.
    pub fn of(alloc: Global, list: Vec<u32>) -> Result<Numbers, NoMemory>
        ensures { IfOk result (λ numbers. numbers ≡ list.items) }
    {
        let places = places_of_numbers(alloc, list.as_slice())?;
        Ok(Numbers { list, places })
    }

    /// The numbers in their order.
    pub fn as_slice(&self) -> &[u32]
        ensures { result.now ≡ self.now }
    {
        self.list.as_slice()
    }

    /// The first place of a number.
    fn place_of(&self, number: u32) -> Option<usize>
        ensures { result ≡ position (λ k. k == number) self.now }
    {
        self.places.get(&number).copied()
    }

    /// The same, or how many there are, where it is none of them.
    #[tactic(auto, using(crate::proofs::HomeLemmas::place_found, crate::proofs::HomeLemmas::place_missing))]
    pub fn place_or_len(&self, number: u32) -> usize
        ensures { result ≡ position_or_len (λ k. k == number) self.now }
    {
        match self.place_of(number) {
            Some(place) => place,
            None => self.list.len(),
        }
    }
}
