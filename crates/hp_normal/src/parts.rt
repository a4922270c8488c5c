// The parts of the program of a script: its slots, its words and its steps.

ghost use Rattle.std.specs.Prelude.{◌≡◌, IfOk};
ghost use Rattle.hp_air.specs.Nodes.{program_of};
ghost use Rattle.hp_flat.specs.Flat.{flat_script};
ghost use Rattle.hp_flat.specs.Homes.{homes_of, slots_in, words_in};

use crate::homes::Homes;
use crate::steps::Steps;
use crate::stmts::add_block;
use hp_air::node::Node;
use hp_air::slot::Slot;
use hp_script::typed::Typed;
use hp_word::place::NoMemory;
use hp_word::sequence::Sequence;
use sqlite_items::Items;
use std::alloc::Global;

/// The parts of a program.
#[derive(Drop)]
pub(crate) struct Parts {
    pub slots: Sequence<Slot>,
    pub words: u32,
    pub body: Items<Node>,
}

/// The steps of a script.
#[tactic(auto, using(crate::proofs::ExprForms::stop_first), unfolding(hp_flat::specs::Flat::flat_script))]
fn body_of(homes: &Homes<'_>, typed: &Typed) -> Result<Items<Node>, NoMemory>
    ensures { homes.now ≡ homes_of typed.now → IfOk result (λ body. program_of body ≡ flat_script typed.now) }
{
    let mut steps = Steps::new(homes.alloc());
    add_block(typed.script.body.as_slice(), homes, &mut steps)?;
    Ok(steps.into_items())
}

/// The slots, the words and the steps of a script: one slot for each array of it, a word for each variable and each
/// expression, and apart from scalar work one operation for each construct.
pub(crate) fn flattened(alloc: Global, typed: &Typed) -> Result<Parts, NoMemory>
    ensures slots { IfOk result (λ made. made.slots ≡ slots_in (homes_of typed.now)) }
    ensures words { IfOk result (λ made. made.words ≡ words_in (homes_of typed.now)) }
    ensures body { IfOk result (λ made. program_of made.body ≡ flat_script typed.now) }
{
    let homes = Homes::of(alloc, typed)?;
    Ok(Parts {
        slots: homes.slots()?,
        words: homes.words()?,
        body: body_of(&homes, typed)?,
    })
}
