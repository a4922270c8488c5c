// What a compiled script writes on so many ranks, and how it ends.

ghost use Rattle.std.specs.Prelude.{◌≤◌};

use hp_compile::compile::compile;
use hp_compile::error::CompileError;
use hp_spmd::code::Code;
use hp_spmd::lockstep::{LockStatus, lockstep};
use hp_word::place::{NoMemory, Place};
use hp_word::sequence::Sequence;
use hp_word::table::Tables;
use hp_worked::Worked;
use std::alloc::Global;
use std::test::Fail;

/// As many instructions as a test allows.
const LIMIT: u64 = 10_000;

// The line that says how a run ends; none where it is done.
fn line(alloc: Global, status: LockStatus) -> Result<String, NoMemory> {
    match status {
        LockStatus::Ended => Ok(String::new(alloc)),
        LockStatus::Trapped(Place { line, col }, kind) => {
            Ok(format!(in alloc; "{line}:{col}: trap {kind:?}\n")?)
        }
        LockStatus::Limit => Ok(String::from_str(alloc, "turns spent\n")?),
    }
}

// What a code writes on so many ranks over no tables, and behind it the line that says how it ends.
fn told(alloc: Global, code: &Code, ranks: u32) -> Result<String, NoMemory>
    requires some { 1 ≤ ranks }
    requires few { ranks ≤ 32 }
{
    let tables = Tables {
        list: Sequence::new(alloc),
    };
    let end = lockstep(alloc, code, &tables, ranks, LIMIT)?;
    let mut told = String::new(alloc);
    told.push_str(&String::from_utf8_lossy(alloc, end.out.as_slice())?)?;
    told.push_str(&line(alloc, end.status)?)?;
    Ok(told)
}

// Whether a code tells this on 1, 2, 3, 5 and 32 ranks.
fn tells(alloc: Global, code: &Code, text: &str) -> Result<bool, NoMemory> {
    for ranks in [1, 2, 3, 5, 32] {
        if told(alloc, code, ranks)?.as_str() != text {
            return Ok(false);
        }
    }
    Ok(true)
}

// Whether a worked script is compiled, and its code tells what is said of it; or is refused by the line that is said.
fn holds(alloc: Global, worked: &Worked) -> Result<bool, NoMemory> {
    match compile(alloc, worked.script.as_bytes()) {
        Ok(compiled) => {
            let mut text = String::new(alloc);
            text.push_str(&worked.out)?;
            text.push_str(&worked.err)?;
            tells(alloc, &compiled.code, &text)
        }
        Err(CompileError::Refused(refusal)) => {
            let line = format!(in alloc; "{refusal}\n")?;
            Ok(line.as_str() == worked.err.as_str())
        }
        Err(CompileError::NotBuilt(Place { line, col })) => {
            let line = format!(in alloc; "{line}:{col}: NotBuilt\n")?;
            Ok(line.as_str() == worked.err.as_str())
        }
        Err(CompileError::NoMemory) => Err(NoMemory),
    }
}

/// Fails at the first script of a text of which something else is told, and shows it.
pub fn hold(alloc: Global, text: &str) -> Result<(), Fail> {
    for one in text.split("\n\n") {
        if !holds(alloc, &Worked::read(alloc, one)?)? {
            return Err(Fail::new(String::from_str(alloc, one)?));
        }
    }
    Ok(())
}
