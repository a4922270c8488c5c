// Worked scripts for tests: what the program answers to them. The status is the one that goes with the line on standard
// error, and 0 where there is none.

use crate::tests::{Left, call_over, with_room};
use hp_outside::files::memory::MemFile;
use hp_word::place::NoMemory;
use hp_worked::{Worked, WorkedFile};
use std::alloc::Global;
use std::test::Fail;

/// A file in memory.
pub fn held(file: WorkedFile) -> MemFile {
    let WorkedFile { name, bytes } = file;
    MemFile { name, bytes }
}

/// The status that goes with a line on standard error.
fn status_of(line: &str) -> u8 {
    if line.is_empty() {
        0
    } else if line == "turns spent\n" {
        6
    } else if line.contains(": trap ") {
        5
    } else if line.ends_with(": cannot be read\n") {
        3
    } else if line.contains(".csv: ") {
        4
    } else {
        2
    }
}

/// The files of a worked script, in memory.
fn tables_of(alloc: Global, files: Vec<WorkedFile>) -> Result<Vec<MemFile>, NoMemory> {
    let mut tables = Vec::new(alloc);
    for file in files {
        tables.push(held(file))?;
    }
    Ok(tables)
}

/// What the program answered, and behind it the script. The answer comes first, since a long message is cut.
fn answered(alloc: Global, script: &str, left: &Left) -> Result<String, NoMemory> {
    let status = left.status;
    let out = String::from_utf8_lossy(alloc, left.out.bytes())?;
    let err = String::from_utf8_lossy(alloc, left.err.bytes())?;
    Ok(format!(in alloc; "status {status}\n{err}{out}{script}")?)
}

/// What the program, called with these words, answers to a script, where it is something else than what is said of it.
fn other(alloc: Global, worked: Worked, words: &str) -> Result<Option<String>, NoMemory> {
    let Worked {
        script,
        files,
        out,
        err,
    } = worked;
    let status = status_of(&err);
    let tables = tables_of(alloc, files)?;
    let left = call_over(alloc, &with_room(script.as_bytes(), 4096), tables, words)?;
    if left.is(status, out.as_bytes(), err.as_bytes()) {
        return Ok(None);
    }
    Ok(Some(answered(alloc, &script, &left)?))
}

/// The first script of a text of which the program, called with these words, answers something else, and that answer.
fn first_other(alloc: Global, text: &str, words: &str) -> Result<Option<String>, NoMemory> {
    for one in text.split("\n\n") {
        let found = other(alloc, Worked::read(alloc, one)?, words)?;
        if found.is_some() {
            return Ok(found);
        }
    }
    Ok(None)
}

/// Fails at the first script of a text of which the program, called with these words, answers something else.
pub fn hold(alloc: Global, text: &str, words: &str) -> Result<(), Fail> {
    match first_other(alloc, text, words)? {
        None => Ok(()),
        Some(answer) => Err(Fail::new(answer)),
    }
}
