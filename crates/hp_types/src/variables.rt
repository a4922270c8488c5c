// The variables that are known at one point of a script.

ghost use Rattle.std.specs.Prelude.{◌≡◌, [], IfOk, OnOk};
ghost use Rattle.std.specs.Option.{option_map};
ghost use Rattle.hp_script.specs.Scope.{shape_among, variables_with};
ghost use Rattle.hp_script.specs.Trees.{named};
ghost use Rattle.hp_types.specs.Names.{with_name};

use crate::copied::copied;
use crate::names::Names;
use hp_script::typed::{Shape, Var};
use hp_word::name::Name;
use hp_word::place::NoMemory;
use hp_word::sequence::Sequence;
use indexmap::IndexMap;
use std::alloc::Global;
use std::marker::Model;

/// Variables in the order of their first assignments, with the types of these, found by a hash of the name. A contract
/// sees the list.
#[derive(Drop)]
pub struct VariableList {
    types: IndexMap<Vec<u8>, Shape>,
}

impl Model for VariableList {
    ghost use Rattle.std.specs.Prelude.{List};
    ghost use Rattle.hp_script.specs.declared.typed.Var.{Var};
    ghost use Rattle.hp_types.specs.Names.{variables_of};

    ghost Value = { List Var };

    ghost view = { λ it. variables_of it.types.entries };
}

impl VariableList {
    /// None; takes no memory.
    pub fn new(alloc: Global) -> VariableList
        ensures { result ≡ [] }
    {
        VariableList {
            types: IndexMap::new(alloc),
        }
    }

    /// The type of a variable.
    #[tactic(auto, using(crate::proofs::KnownVariables::shape_seen))]
    pub fn shape_of(&self, name: &[u8]) -> Option<&Shape>
        ensures { option_map (λ shape. shape.now) result ≡ shape_among self.now name.now }
    {
        self.types.get(name)
    }

    /// Adds a variable of this type, unless there is one of this name.
    pub fn add(&mut self, alloc: Global, name: &[u8], shape: Shape) -> Result<(), NoMemory>
        ensures { OnOk result (self.new ≡ variables_with (shape_among self.old name.now) self.old name.now shape) }
    {
        if !self.types.contains_key(name) {
            self.types.insert(Vec::from_slice(alloc, name)?, shape)?;
        }
        Ok(())
    }

    /// The list of the variables.
    pub fn listed(&self, alloc: Global) -> Result<Sequence<Var>, NoMemory>
        ensures { IfOk result (λ list. list ≡ self.now) }
    {
        let mut list = Sequence::new(alloc);
        for i in 0..self.types.len() {
            if let Some((name, shape)) = self.types.get_index(i) {
                let var = var_of(alloc, name.as_slice(), shape)?;
                list.push(var)?;
            }
        }
        Ok(list)
    }
}

/// A variable of this name and type.
fn var_of(alloc: Global, name: &[u8], shape: &Shape) -> Result<Var, NoMemory>
    ensures { IfOk result (λ var. var ≡ record { name = named name.now; shape = shape.now }) }
{
    let shape = copied(shape)?;
    let name = Name::of(alloc, name)?;
    Ok(Var { name, shape })
}

/// The variables that are assigned so far in the text, and those names that each way which leads here assigns.
#[derive(Drop)]
pub struct Variables {
    pub list: VariableList,
    /// The names in the order in which they became sure: what a branch adds stands behind what was sure before it.
    pub sure: Names,
}

impl Variables {
    /// None; takes no memory.
    pub fn new(alloc: Global) -> Variables
        ensures { (result.list ≡ []) × (result.sure ≡ []) }
    {
        Variables {
            list: VariableList::new(alloc),
            sure: Names::new(alloc),
        }
    }

    /// Assigns a value of this type to a name.
    pub fn assign(&mut self, alloc: Global, name: &[u8], shape: Shape) -> Result<(), NoMemory>
        ensures list { OnOk result (self.new.list ≡ variables_with (shape_among self.old.list name.now) self.old.list name.now shape) }
        ensures sure { OnOk result (self.new.sure ≡ with_name name.now self.old.sure) }
    {
        self.list.add(alloc, name, shape)?;
        self.sure.add(alloc, name)
    }
}
