// A script that fits as a program of the array IR.

ghost use Rattle.std.specs.Prelude.{◌≡◌, IfOk, List};
ghost use Rattle.hp_word.specs.declared.table.Table.{Table};
ghost use Rattle.hp_script.specs.Checked.{Checked};
ghost use Rattle.hp_meaning.specs.Fitting.{Serves as GoWith};
ghost use Rattle.hp_air.specs.Carried.{Carried, rows_of};
ghost use Rattle.hp_air.specs.Meaning.{Serves};
ghost use Rattle.hp_air.specs.Nodes.{program_of};
ghost use Rattle.hp_air.specs.Unknowns.{constructs};
ghost use Rattle.hp_flat.specs.Flat.{flat_script};
ghost use Rattle.hp_flat.specs.FlatLaws.{AsksTheSame, GivesGreatest, HasOneEach, HasOneMeaning, MeansTheSame};
ghost use Rattle.hp_flat.specs.Homes.{homes_of, slots_in, words_in};
ghost use Rattle.hp_flat.specs.StepByStep.{Follows};

use crate::parts::{Parts, flattened};
use hp_air::air::Air;
use hp_flat::laws::flat_laws;
use hp_script::typed::Typed;
use hp_word::place::NoMemory;
use std::alloc::Global;

/// The program of a script in which no rule breaks. Each array of the script, which is one of a variable, one of the value
/// of an expression or the balanced copy of a stencil, has exactly one slot; each variable and each expression has a word;
/// and apart from scalar work there is one operation for each construct, over the same arrays and in the order of the text.
/// The program carries the script, asks of how its arrays lie exactly what the script asks, so that the greatest
/// distributions of its slots are the greatest of the script's arrays, and is served by tables that have the columns of the
/// script's files. Over these it means what the script means: under all orders and with any number of loop turns it ends in the
/// same way, with the same output and bad orders, or at the very trap, and its work is at most 16 for each tick and 16 more.
pub fn normalize(alloc: Global, typed: &Typed) -> Result<Air, NoMemory>
    requires { Checked typed.now }
    ensures slots { IfOk result (λ air. air.slots ≡ slots_in (homes_of typed.now)) }
    ensures words { IfOk result (λ air. air.words ≡ words_in (homes_of typed.now)) }
    ensures body { IfOk result (λ air. program_of air.body ≡ flat_script typed.now) }
    ensures one_each { IfOk result (λ air. HasOneEach typed.now air.slots) }
    ensures step_by_step { IfOk result (λ air. Follows (rows_of air.slots (program_of air.body)) (constructs typed.now)) }
    ensures carried { IfOk result (λ air. Carried typed.now air.slots (program_of air.body)) }
    ensures constraints { IfOk result (λ air. AsksTheSame typed.now air.slots (program_of air.body)) }
    ensures greatest { IfOk result (λ air. GivesGreatest typed.now air.slots (program_of air.body)) }
    ensures served { IfOk result (λ air. (tables : List Table) → GoWith tables typed.now.reads → Serves (program_of air.body) tables) }
    ensures meaning { IfOk result (λ air. MeansTheSame typed.now air.slots (program_of air.body)) }
    ensures one_meaning { IfOk result (λ air. HasOneMeaning typed.now air.slots (program_of air.body)) }
{
    flat_laws();
    let Parts { slots, words, body } = flattened(alloc, typed)?;
    Ok(Air { slots, words, body })
}
