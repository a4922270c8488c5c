// From the bytes of a script to the code of all ranks.

ghost use Rattle.std.specs.Prelude.{IfErr, IfOk};
ghost use Rattle.hp_compile.specs.Answers.{Explains, FitsRanks};
ghost use Rattle.hp_compile.specs.Compiling.{IsCodeOf, RanksRunScript};
ghost use Rattle.hp_compile.specs.Placing.{IsProgramOf};

use crate::error::CompileError;
use crate::laws::{headline_laws, ranks_laws};
use crate::place::{Placed, place};
use crate::script::script_for_ranks;
use hp_lattice::dist::Dists;
use hp_lowering::lower::lower;
use hp_parfor::parfors::Parfors;
use hp_script::typed::Typed;
use hp_spmd::code::Code;
use std::alloc::Global;

/// A script that fits, how its arrays lie, its program with loops, and the code of all ranks.
#[derive(Drop)]
pub struct Compiled {
    pub typed: Typed,
    pub dists: Dists,
    pub parfors: Parfors,
    pub code: Code,
}

/// Compiles a script: its program with loops, the greatest distributions of its arrays, and the code of all ranks. However many
/// ranks of 1 to 32 run that code over tables that go with the script's files, with any room of the queues between them and after
/// any list of turns: they are not stuck, each with its arrays shared as the code says; they have written a front of the script's
/// output under the orders of rows that they have kept; where all have halted, the script is done with exactly that output; and
/// where one has trapped, the script traps.
///
/// Errors: `Refused` where the bytes are no script that fits, with the first place that breaks a rule; `NotBuilt` with the
/// first place, by line and then by column, of a construct that ranks cannot run yet; `NoMemory` where memory was refused.
pub fn compile(alloc: Global, bytes: &[u8]) -> Result<Compiled, CompileError>
    ensures fits { IfOk result (λ made. FitsRanks bytes.now made.typed) }
    ensures program { IfOk result (λ made. IsProgramOf made.typed made.parfors made.dists) }
    ensures code { IfOk result (λ made. IsCodeOf made.parfors made.dists made.code) }
    ensures runs { IfOk result (λ made. RanksRunScript made.typed made.dists made.code) }
    ensures explains { IfErr result (Explains bytes.now) }
{
    ranks_laws();
    headline_laws();
    let typed = script_for_ranks(alloc, bytes)?;
    let Placed { parfors, dists } = place(alloc, &typed)?;
    let code = lower(alloc, &parfors, &dists)?;
    Ok(Compiled {
        typed,
        dists,
        parfors,
        code,
    })
}
