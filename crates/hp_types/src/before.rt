// The arguments of a call that are tested so far.

ghost use Rattle.std.specs.Prelude.{◌≡◌, ◌||◌, ℕ, List, [], ◌∷◌, ◌++◌, ◌==◌, length, IfOk, OnOk};
ghost use Rattle.std.specs.Option.{option_map};
ghost use Rattle.hp_script.specs.Breaks.{names_among};
ghost use Rattle.hp_script.specs.Scope.{has};
ghost use Rattle.hp_types.specs.Known.{listed};

use crate::names::Names;
use hp_script::argument::Argument;
use hp_script::function::Function;
use hp_word::name::Name;
use hp_word::place::{NoMemory, Place};
use hp_word::sequence::Sequence;
use std::alloc::Global;
use std::marker::Model;

/// The arguments of a call that are tested so far, with the names that they give or name, found by a hash. A contract sees
/// the arguments.
#[derive(Drop)]
pub struct Before {
    arguments: Sequence<Argument>,
    names: Names,
}

impl Model for Before {
    ghost use Rattle.std.specs.Prelude.{◌≡◌, ℕ, List};
    ghost use Rattle.hp_script.specs.declared.argument.Argument.{Argument};
    ghost use Rattle.hp_script.specs.Breaks.{names_among};
    ghost use Rattle.hp_script.specs.Scope.{has};

    ghost Value = { List Argument };

    ghost view = { λ it. it.arguments };

    ghost invariant = { λ it. (x : List ℕ) → has x it.names ≡ has x (names_among it.arguments) };
}

impl Before {
    /// None; takes no memory.
    pub fn new(alloc: Global) -> Before
        ensures { result ≡ [] }
    {
        Before {
            arguments: Sequence::new(alloc),
            names: Names::new(alloc),
        }
    }

    /// The arguments in the order in which they were tested.
    pub fn as_slice(&self) -> &[Argument]
        ensures { result.now ≡ self.now }
    {
        self.arguments.as_slice()
    }

    /// Whether there is none.
    pub fn is_empty(&self) -> bool
        ensures { result ≡ (length self.now == 0) }
    {
        self.arguments.as_slice().is_empty()
    }

    /// Whether one of these arguments gives or names this name.
    pub fn names(&self, name: &[u8]) -> bool
        ensures { result ≡ has name.now (names_among self.now) }
    {
        self.names.has(name)
    }

    /// These arguments and one behind them.
    pub fn with(self, alloc: Global, argument: Argument) -> Result<Before, NoMemory>
        ensures { IfOk result (λ more. more ≡ self ++ argument ∷ []) }
    {
        let Before {
            mut arguments,
            mut names,
        } = self;
        add_name(alloc, &mut names, &argument)?;
        arguments.push(argument)?;
        Ok(Before { arguments, names })
    }
}

/// A call of a function at a place, with its arguments that are tested so far.
#[derive(Clone, Copy)]
pub struct CallSoFar<'a> {
    pub function: Function,
    pub at: Place,
    pub before: &'a Before,
}

/// The name that an argument gives or names, if there is one.
fn name_of(argument: &Argument) -> Option<&Name>
    ensures { listed (option_map (λ name. name.now.bytes) result) ≡ names_among (argument.now ∷ []) }
{
    match argument {
        Argument::Column(name) | Argument::Given(name, _) | Argument::Measure(name) => Some(name),
        _ => None,
    }
}

/// Adds the name that an argument gives or names, if there is one.
fn add_name(alloc: Global, names: &mut Names, argument: &Argument) -> Result<(), NoMemory>
    ensures { OnOk result ((x : List ℕ) → has x names.new ≡ (has x names.old || has x (names_among (argument.now ∷ [])))) }
{
    match name_of(argument) {
        Some(name) => names.add(alloc, name.bytes.as_slice()),
        None => Ok(()),
    }
}
