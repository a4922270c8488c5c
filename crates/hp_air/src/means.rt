// What programs mean, whatever their steps are.

ghost use Rattle.std.specs.Prelude.{ℕ, List};
ghost use Rattle.hp_word.specs.Runs.{Ran};
ghost use Rattle.hp_word.specs.declared.order.Order.{Order};
ghost use Rattle.hp_word.specs.declared.table.Table.{Table};
ghost use Rattle.hp_lattice.specs.declared.dist.Dist.{Dist as SpecDist};
ghost use Rattle.hp_script.specs.declared.typed.Typed.{Typed};
ghost use Rattle.hp_air.specs.declared.slot.Slot.{Slot as SpecSlot};
ghost use Rattle.hp_air.specs.Wholes.{Env};
ghost use Rattle.hp_air.specs.Nodes.{program_of};
ghost use Rattle.hp_air.specs.Meaning.{Serves as ServesProgram, mean as mean_of, work_of};
ghost use Rattle.hp_air.specs.Placed.{Placed};
ghost use Rattle.hp_air.specs.Carried.{Carried};

use crate::air::Air;

/// A program over whole arrays. No call: what it means is for contracts.
pub trait Means {
    /// Its slots.
    ghost slots: { Self → List SpecSlot };

    /// These tables have as many columns as each of its reads names.
    ghost serves: { Self → List Table → Type 0 };

    /// How it ends over these tables and under these orders, with so many loop turns: its status, output and environment,
    /// and in that the bad orders.
    ghost mean: { Self → List Table → List Order → ℕ → Ran Env ℕ };

    /// Its work until then, where the slots have these distributions.
    ghost work: { Self → List Table → List Order → ℕ → List SpecDist → ℕ };

    /// It can run by these distributions of its slots.
    ghost placed: { Self → List SpecDist → Type 0 };

    /// It carries this script.
    ghost carried: { Self → Typed → Type 0 };
}

impl Means for Air {
    ghost slots = { λ air. air.slots };

    ghost serves = { λ air. ServesProgram (program_of air.body) };

    ghost mean = { λ air. mean_of air.slots (program_of air.body) };

    ghost work = { λ air tables orders fuel dists. work_of (mean_of air.slots (program_of air.body) tables orders fuel) };

    ghost placed = { λ air. Placed air.slots (program_of air.body) };

    ghost carried = { λ air typed. Carried typed air.slots (program_of air.body) };
}
