// The first slot of each expression and of each variable, found by a hash of its number.

ghost use Rattle.std.specs.Prelude.{◌≡◌, ℕ, List, [], ◌∷◌, ◌++◌, length, nat_eq, Some, unwrap_or, if◌then◌else◌, IsTrue, IfOk, OnOk};
ghost use Rattle.std.specs.List.{position_or_len};
ghost use Rattle.indexmap.specs.IndexMap.{get};
ghost use Rattle.hp_air.specs.declared.slot.Slot.{Slot as SpecSlot};
ghost use Rattle.hp_air.specs.Frames.{is_one_frame};
ghost use Rattle.hp_air.specs.Kept.{stands_for_one};
ghost use Rattle.hp_constrain.specs.Firsts.{HasFirsts};

use hp_air::slot::Slot;
use hp_word::place::NoMemory;
use indexmap::IndexMap;
use std::alloc::Global;

/// The first slot with this number; it is `slot` where there was none.
fn first_with(firsts: &mut IndexMap<u32, u32>, number: u32, slot: u32) -> Result<u32, NoMemory>
    ensures first { IfOk result (λ first. first ≡ unwrap_or (get nat_eq firsts.old number) slot) }
    ensures held { OnOk result ((n : ℕ) → get nat_eq firsts.new n ≡ (if nat_eq number n then Some (unwrap_or (get nat_eq firsts.old number) slot) else get nat_eq firsts.old n)) }
{
    if let Some(first) = firsts.get(&number) {
        return Ok(*first);
    }
    firsts.insert(number, slot)?;
    Ok(slot)
}

/// The first slots of expressions and of variables, by their numbers.
#[derive(Drop)]
pub struct Firsts {
    nodes: IndexMap<u32, u32>,
    vars: IndexMap<u32, u32>,
}

impl Firsts {
    /// None; takes no memory.
    pub fn new(alloc: Global) -> Firsts
        ensures { HasFirsts [] result }
    {
        Firsts {
            nodes: IndexMap::new(alloc),
            vars: IndexMap::new(alloc),
        }
    }

    /// The first slot of the frame of a slot that stands behind all that were looked at; it is looked at from now on.
    pub fn first_of(&mut self, slot: &Slot, number: u32) -> Result<u32, NoMemory>
        ensures first { (before : List SpecSlot) → HasFirsts before self.old → length before ≡ number → IsTrue (stands_for_one slot.now) → IfOk result (λ first. first ≡ position_or_len (is_one_frame slot.now) before) }
        ensures held { (before : List SpecSlot) → HasFirsts before self.old → length before ≡ number → IsTrue (stands_for_one slot.now) → OnOk result (HasFirsts (before ++ slot.now ∷ []) self.new) }
    {
        if slot.balanced {
            return Ok(number);
        }
        match (slot.node, slot.var) {
            (Some(node), _) => first_with(&mut self.nodes, node.0, number),
            (None, Some(var)) => first_with(&mut self.vars, var, number),
            (None, None) => Ok(number),
        }
    }
}
