// The steps of a program, as they are made one after the other.

ghost use Rattle.std.specs.Prelude.{◌≡◌, OnOk};
ghost use Rattle.hp_program.specs.Programs.{stop, choose, loop, joined};
ghost use Rattle.hp_air.specs.Nodes.{program_of};
ghost use Rattle.hp_flat.specs.FlatCalls.{code_of};
ghost use Rattle.hp_normal.specs.Programs.{program_in, code_in};

use hp_air::node::Node;
use hp_air::what::{Op, What};
use hp_word::place::{NoMemory, Place};
use sqlite_items::Items;
use std::alloc::Global;

/// Steps in their order; a contract speaks of the program that they are.
#[derive(Drop)]
pub struct Steps {
    list: Vec<Node>,
}

impl Steps {
    /// No steps; takes no memory.
    #[tactic(auto, unfolding(hp_air::specs::Nodes::program_of))]
    pub fn new(alloc: Global) -> Steps
        ensures { program_in result ≡ stop }
    {
        Steps {
            list: Vec::new(alloc),
        }
    }

    /// Adds an operation, at the place of its construct.
    #[tactic(auto, using(crate::proofs::StepLemmas::one_more))]
    pub fn push(&mut self, at: Place, what: What) -> Result<(), NoMemory>
        ensures { OnOk result (program_in self.new ≡ joined (program_in self.old) (code_of at what)) }
    {
        self.list.push(Node::Do(Op { at, what }))?;
        Ok(())
    }

    /// Adds the operation that a construct is, where it is one.
    #[tactic(auto, using(crate::proofs::StepLemmas::joined_stop))]
    pub fn add(&mut self, at: Place, what: Option<What>) -> Result<(), NoMemory>
        ensures { OnOk result (program_in self.new ≡ joined (program_in self.old) (code_in at what)) }
    {
        match what {
            Some(what) => self.push(at, what),
            None => Ok(()),
        }
    }

    /// Adds a branch by a word.
    #[tactic(auto, using(crate::proofs::StepLemmas::one_branch))]
    pub fn branch(&mut self, word: u32, first: Steps, second: Steps) -> Result<(), NoMemory>
        ensures { OnOk result (program_in self.new ≡ joined (program_in self.old) (choose word (program_in first) (program_in second) stop)) }
    {
        let first = Items::from_vec(first.list);
        let second = Items::from_vec(second.list);
        self.list.push(Node::If(word, first, second))?;
        Ok(())
    }

    /// Adds a loop: the steps that make the word of the test, the word, and the steps as long as it is true.
    #[tactic(auto, using(crate::proofs::StepLemmas::one_loop))]
    pub fn turns(&mut self, test: Steps, word: u32, body: Steps) -> Result<(), NoMemory>
        ensures { OnOk result (program_in self.new ≡ joined (program_in self.old) (loop (program_in test) word (program_in body) stop)) }
    {
        let test = Items::from_vec(test.list);
        let body = Items::from_vec(body.list);
        self.list.push(Node::While(test, word, body))?;
        Ok(())
    }

    /// The steps as the body of a program; takes no memory.
    pub fn into_items(self) -> Items<Node>
        ensures { program_of result ≡ program_in self }
    {
        Items::from_vec(self.list)
    }
}
