// Names, each once, found by a hash; and the names that a script assigns.

ghost use Rattle.std.specs.Prelude.{◌≡◌, ◌≤◌, ◌||◌, ℕ, List, [], ◌∷◌, length, map, take, drop, IfOk, OnOk};
ghost use Rattle.hp_script.specs.Checked.{assigned_in};
ghost use Rattle.hp_script.specs.Mirror.{block_of};
ghost use Rattle.hp_script.specs.Scope.{has};
ghost use Rattle.hp_types.specs.Names.{bytes_of, with_name, with_common};

use hp_script::tree::Stmt;
use hp_word::place::NoMemory;
use indexmap::IndexSet;
use std::alloc::Global;
use std::marker::Model;

/// Names, each once, in the order in which they were added, found by a hash.
#[derive(Drop)]
pub struct Names {
    set: IndexSet<Vec<u8>>,
}

impl Model for Names {
    ghost use Rattle.std.specs.Prelude.{ℕ, List};
    ghost use Rattle.hp_types.specs.Names.{bytes_of};

    ghost Value = { List (List ℕ) };

    ghost view = { λ it. bytes_of it.set.keys };
}

impl Names {
    /// None; takes no memory.
    pub fn new(alloc: Global) -> Names
        ensures { result ≡ [] }
    {
        Names {
            set: IndexSet::new(alloc),
        }
    }

    /// Whether a name is among these.
    #[tactic(auto, using(crate::proofs::NameSets::has_seen))]
    pub fn has(&self, name: &[u8]) -> bool
        ensures { result ≡ has name.now self.now }
    {
        self.set.contains(name)
    }

    /// How many names there are.
    #[tactic(auto, using(crate::proofs::NameSets::length_seen))]
    pub fn len(&self) -> usize
        ensures { result ≡ length self.now }
    {
        self.set.len()
    }

    /// The names in their order.
    pub fn as_slice(&self) -> &[Vec<u8>]
        ensures { bytes_of result.now ≡ self.now }
    {
        self.set.as_slice()
    }

    /// Adds a name, unless it is among these.
    pub fn add(&mut self, alloc: Global, name: &[u8]) -> Result<(), NoMemory>
        ensures { OnOk result (self.new ≡ with_name name.now self.old) }
    {
        if !self.set.contains(name) {
            self.set.insert(Vec::from_slice(alloc, name)?)?;
        }
        Ok(())
    }

    /// Keeps the first names, and drops the others.
    #[tactic(auto, using(crate::proofs::NameSets::take_seen))]
    pub fn truncate(&mut self, len: usize)
        ensures { self.new ≡ take len self.old }
    {
        self.set.truncate(len);
    }

    /// Keeps the first names, and gives the others.
    #[tactic(auto, using(crate::proofs::NameSets::take_seen, crate::proofs::NameSets::drop_seen, crate::proofs::NameSets::length_seen))]
    pub fn split_off(&mut self, len: usize) -> Result<Names, NoMemory>
        requires { len ≤ length self.old }
        ensures kept { OnOk result (self.new ≡ take len self.old) }
        ensures others { IfOk result (λ others. others ≡ drop len self.old) }
    {
        let set = self.set.split_off(len)?;
        Ok(Names { set })
    }

    /// Adds the names that two sets have in common.
    pub fn add_common(
        &mut self,
        alloc: Global,
        first: &Names,
        second: &Names,
    ) -> Result<(), NoMemory>
        ensures { OnOk result (self.new ≡ with_common first.now second.now self.old) }
    {
        let names = second.as_slice();
        for name in names {
            if first.has(name.as_slice()) {
                self.add(alloc, name.as_slice())?;
            }
        }
        Ok(())
    }

    /// Keeps the first names, and of the others those that are in another set too.
    pub fn keep_common(&mut self, alloc: Global, len: usize, first: &Names) -> Result<(), NoMemory>
        requires { len ≤ length self.old }
        ensures { OnOk result (self.new ≡ with_common first.now (drop len self.old) (take len self.old)) }
    {
        let second = self.split_off(len)?;
        self.add_common(alloc, first, &second)
    }
}

/// The names that the statements of a script assign. A contract sees their list.
#[derive(Drop)]
pub struct Assigned<'a> {
    body: &'a [Stmt],
    names: Names,
}

impl<'a> Model for Assigned<'a> {
    ghost use Rattle.std.specs.Prelude.{◌≡◌, ℕ, List};
    ghost use Rattle.hp_script.specs.Checked.{assigned_in};
    ghost use Rattle.hp_script.specs.Mirror.{block_of};
    ghost use Rattle.hp_script.specs.Scope.{has};

    ghost Value = { List (List ℕ) };

    ghost view = { λ it. assigned_in (block_of it.body.now) };

    ghost invariant = { λ it. (x : List ℕ) → has x it.names ≡ has x (assigned_in (block_of it.body.now)) };
}

impl<'a> Assigned<'a> {
    /// The names that these statements assign.
    pub fn of(alloc: Global, body: &'a [Stmt]) -> Result<Assigned<'a>, NoMemory>
        ensures { IfOk result (λ assigned. assigned ≡ assigned_in (block_of body.now)) }
    {
        let mut names = Names::new(alloc);
        add_assigned(alloc, &mut names, body)?;
        Ok(Assigned { body, names })
    }

    /// Whether the script assigns a name.
    pub fn has(&self, name: &[u8]) -> bool
        ensures { result ≡ has name.now self.now }
    {
        self.names.has(name)
    }
}

/// Adds the names that statements assign.
#[cycle(assigns)]
fn add_assigned(alloc: Global, names: &mut Names, body: &[Stmt]) -> Result<(), NoMemory>
    ensures { OnOk result ((x : List ℕ) → has x names.new ≡ (has x names.old || has x (assigned_in (block_of body.now)))) }
{
    for stmt in body {
        add_assigned_by(alloc, names, stmt)?;
    }
    Ok(())
}

/// Adds the names that a statement assigns.
#[cycle(assigns)]
fn add_assigned_by(alloc: Global, names: &mut Names, stmt: &Stmt) -> Result<(), NoMemory>
    ensures { OnOk result ((x : List ℕ) → has x names.new ≡ (has x names.old || has x (assigned_in (block_of (stmt.now ∷ []))))) }
{
    match stmt {
        Stmt::Assign(_, assigned, _) => names.add(alloc, assigned.bytes.as_slice()),
        Stmt::Print(..) | Stmt::Export(..) => Ok(()),
        Stmt::If(_, _, body, other) => {
            add_assigned(alloc, names, body.as_slice())?;
            add_assigned(alloc, names, other.as_slice())
        }
        Stmt::While(_, _, body) => add_assigned(alloc, names, body.as_slice()),
    }
}
