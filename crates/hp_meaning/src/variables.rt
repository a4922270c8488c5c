// The variables of a run, found by their numbers.

ghost use Rattle.std.specs.Prelude.{◌≡◌, ◌++◌, ◌∷◌, [], None, Some, OnOk, IsTrue};
ghost use Rattle.hp_meaning.specs.HeldValues.{Finds};
ghost use Rattle.hp_meaning.specs.Scopes.{var, value_named, place_named, assigned};

use crate::columns::copied_name;
use crate::seen::Stop;
use crate::value::{Value, Var};
use hp_word::name::Name;
use hp_word::place::NoMemory;
use indexmap::IndexSet;
use std::alloc::Global;
use std::marker::Model;

/// The variables in the order of their first assignments, each name once. A contract sees their list.
///
/// A variable is looked for first where the one with its number was put, and found there by its name; any other is
/// found by a hash.
#[derive(Drop)]
pub struct Variables {
    list: Vec<Var>,
    names: IndexSet<Vec<u8>>,
    /// By its number, where a variable was put.
    places: Vec<usize>,
}

impl Model for Variables {
    ghost use Rattle.std.specs.Prelude.{◌≡◌, List, map};
    ghost use Rattle.hp_meaning.specs.declared.value.Var.{Var};

    ghost Value = { List Var };

    ghost view = { λ it. it.list.items };

    ghost invariant = { λ it. map (λ v. v.name.bytes) it.list.items ≡ map (λ k. k.items) it.names.keys };
}

impl Variables {
    /// None; takes no memory.
    pub fn new(alloc: Global) -> Variables
        ensures { result ≡ [] }
    {
        Variables {
            list: Vec::new(alloc),
            names: IndexSet::new(alloc),
            places: Vec::new(alloc),
        }
    }

    /// The variables in their order.
    pub fn as_slice(&self) -> &[Var]
        ensures { result.now ≡ self.now }
    {
        self.list.as_slice()
    }

    /// Whether the variable with this name stands at a place.
    fn is_at(&self, place: usize, name: &[u8]) -> bool
        ensures { IsTrue result → place_named name.now self.now ≡ Some place }
    {
        let names = self.names.as_slice();
        place < names.len() && names[place].as_slice() == name
    }

    /// Where the variable with this number was put.
    fn noted(&self, number: usize) -> usize {
        match self.places.get(number) {
            Some(place) => *place,
            None => usize::MAX,
        }
    }

    /// Where the variable with this name stands.
    fn place(&self, number: usize, name: &[u8]) -> Option<usize>
        ensures { result ≡ place_named name.now self.now }
    {
        let place = self.noted(number);
        if self.is_at(place, name) {
            return Some(place);
        }
        self.names.get_index_of(name)
    }

    /// The value of the variable with this name, whose number it may be.
    pub fn value_named(&self, number: usize, name: &[u8]) -> Result<&Value, Stop>
        ensures { Finds (λ a. a.now) (value_named name.now self.now) result }
    {
        match self.place(number, name) {
            Some(place) => Ok(&self.list[place].value),
            None => Err(Stop::Wrong),
        }
    }

    /// Gives a variable its value, in the place of an earlier one.
    pub fn assign(
        &mut self,
        alloc: Global,
        number: usize,
        name: &Name,
        value: Value,
    ) -> Result<(), NoMemory>
        ensures { OnOk result (self.new ≡ assigned name.now.bytes value self.old) }
    {
        match self.place(number, name.bytes.as_slice()) {
            Some(place) => {
                self.list[place].value = value;
                Ok(())
            }
            None => self.add(alloc, number, name, value),
        }
    }

    /// Adds a variable with its value.
    fn add(
        &mut self,
        alloc: Global,
        number: usize,
        name: &Name,
        value: Value,
    ) -> Result<(), NoMemory>
        requires { place_named name.now.bytes self.old ≡ None }
        ensures { OnOk result (self.new ≡ self.old ++ var name.now.bytes value ∷ []) }
    {
        let key = Vec::from_slice(alloc, name.bytes.as_slice())?;
        let name = copied_name(alloc, name)?;
        note(&mut self.places, number, self.list.len())?;
        self.list.push(Var { name, value })?;
        match self.names.insert(key) {
            Ok(_) => Ok(()),
            Err(_) => {
                self.list.pop();
                Err(NoMemory)
            }
        }
    }
}

/// Notes where the variable with a number is put.
fn note(places: &mut Vec<usize>, number: usize, place: usize) -> Result<(), NoMemory> {
    for _ in places.len()..number {
        places.push(usize::MAX)?;
    }
    if number < places.len() {
        places[number] = place;
    } else {
        places.push(place)?;
    }
    Ok(())
}
