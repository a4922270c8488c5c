// The constraints of frames: each column after the first is equal to the first.

ghost use Rattle.std.specs.Prelude.{◌≡◌, ◌<◌, ◌^◌, ◌==◌, [], flat_map, length, if◌then◌else◌, IsTrue, OnOk};
ghost use Rattle.std.specs.List.{list_all};
ghost use Rattle.hp_air.specs.Constraints.{equal};
ghost use Rattle.hp_air.specs.Frames.{numbers_of};
ghost use Rattle.hp_air.specs.Kept.{stands_for_one};
ghost use Rattle.hp_air.specs.Placed.{frame_bounds};
ghost use Rattle.hp_constrain.specs.Listed.{Adds};

use crate::firsts::Firsts;
use crate::rows::add_equal;
use hp_air::constraint::Constraint;
use hp_air::slot::Slot;
use hp_word::place::NoMemory;
use std::alloc::Global;

/// A slot lies as the first of its frame, where it is not that.
fn add_column(list: &mut Vec<Constraint>, slot: u32, first: u32) -> Result<(), NoMemory>
    ensures { OnOk result (Adds (if first == slot then [] else equal slot first) list.old.items list.new.items) }
{
    if first != slot {
        add_equal(list, slot, first)?;
    }
    Ok(())
}

/// The constraints of the frames of these slots.
pub fn add_frames(alloc: Global, list: &mut Vec<Constraint>, slots: &[Slot]) -> Result<(), NoMemory>
    requires one { IsTrue (list_all stands_for_one slots.now) }
    requires few { length slots.now < 2 ^ 32 }
    ensures { OnOk result (Adds (flat_map (frame_bounds slots.now) (numbers_of slots.now)) list.old.items list.new.items) }
{
    let mut firsts = Firsts::new(alloc);
    for (number, slot) in slots.iter().enumerate() {
        let first = firsts.first_of(slot, number as u32)?;
        add_column(list, number as u32, first)?;
    }
    Ok(())
}
