// From the bytes of a script to a script that ranks can run.

ghost use Rattle.std.specs.Prelude.{IfErr, IfOk};
ghost use Rattle.hp_compile.specs.Answers.{Explains, FitsRanks};

use crate::error::CompileError;
use hp_built::ranks::ForRanks;
use hp_built::unbuilt::first_unbuilt;
use hp_reader::error::ReadError;
use hp_reader::read::read_script;
use hp_script::typed::Typed;
use std::alloc::Global;

/// The script that bytes spell, which fits and of which ranks can run each construct.
///
/// Errors: `Refused` where the bytes are no script that fits, with the first place that breaks a rule; `NotBuilt` with the
/// first place, by line and then by column, of a construct that ranks cannot run yet; `NoMemory` where memory was refused.
pub fn script_for_ranks(alloc: Global, bytes: &[u8]) -> Result<Typed, CompileError>
    ensures fits { IfOk result (FitsRanks bytes.now) }
    ensures explains { IfErr result (Explains bytes.now) }
{
    let typed = match read_script(alloc, bytes) {
        Ok(typed) => typed,
        Err(ReadError::Refused(refusal)) => return Err(CompileError::Refused(refusal)),
        Err(ReadError::NoMemory) => return Err(CompileError::NoMemory),
    };
    match first_unbuilt(&ForRanks, &typed) {
        Some(at) => Err(CompileError::NotBuilt(at)),
        None => Ok(typed),
    }
}
