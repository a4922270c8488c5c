// From the bytes of a script to the program of all ranks.

ghost use Rattle.std.specs.Prelude.{IfOk, IfErr};
ghost use Rattle.hp_lower.specs.Correct.{Runs};
ghost use Rattle.hp_reader.specs.Reading.{Refuses, Fits};
ghost use Rattle.hp_command.specs.Session.{RefusedBy, not_built};

use crate::answer::Answer;
use hp_lower::lower::lower;
use hp_meaning::forms::FormError;
use hp_reader::error::ReadError;
use hp_reader::read::read_script;
use hp_script::rule::Rule;
use hp_script::tree::Script;
use hp_script::typed::Typed;
use hp_spmd::code::Code;
use std::alloc::Global;

/// The program of a script, or the answer that says why there is none.
pub fn program_of(alloc: Global, script: &Script) -> Result<Code, Answer>
    ensures ok { IfOk result (λ code. Runs script.now.body code) }
    ensures refused { IfErr result (RefusedBy (not_built script.now.body)) }
{
    match lower(alloc, script) {
        Ok(code) => Ok(code),
        Err(FormError::NotBuilt(at)) => Err(Answer::Refused(at, Rule::NotBuilt)),
        Err(FormError::NoMemory) => Err(Answer::NoMemory),
    }
}

/// The script that bytes spell and that fits, or the answer that says why there is none.
pub fn fitting(alloc: Global, bytes: &[u8]) -> Result<Typed, Answer>
    ensures ok { IfOk result (Fits bytes.now) }
    ensures refused { IfErr result (RefusedBy (Refuses bytes.now)) }
{
    match read_script(alloc, bytes) {
        Ok(typed) => Ok(typed),
        Err(ReadError::Refused(refusal)) => Err(Answer::Refused(refusal.at, refusal.rule)),
        Err(ReadError::NoMemory) => Err(Answer::NoMemory),
    }
}
