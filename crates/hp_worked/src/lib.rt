//! Worked scripts for tests, as texts: behind each script stands what is answered.
//!
//! An empty line stands between two scripts. A line that begins with `#@ ` is a file that the script may read, one that
//! begins with `#> ` a line of standard output, and one that begins with `#! ` the line on standard error. All other
//! lines are the script's.
#![tactic(auto)]

use hp_word::name::Name;
use hp_word::place::NoMemory;
use hp_word::sequence::Sequence;
use std::alloc::Global;

/// A file that a script may read.
#[derive(Debug, Drop)]
pub struct WorkedFile {
    pub name: Name,
    pub bytes: Sequence<u8>,
}

/// A worked script: its lines, its files, and what is written to standard output and to standard error.
#[derive(Debug, Drop)]
pub struct Worked {
    pub script: String,
    pub files: Vec<WorkedFile>,
    pub out: String,
    pub err: String,
}

impl Worked {
    // A script of no line, of which nothing is said.
    fn new(alloc: Global) -> Worked {
        Worked {
            script: String::new(alloc),
            files: Vec::new(alloc),
            out: String::new(alloc),
            err: String::new(alloc),
        }
    }

    /// The worked script of a text.
    pub fn read(alloc: Global, text: &str) -> Result<Worked, NoMemory> {
        let mut worked = Worked::new(alloc);
        for line in text.lines() {
            worked.take(alloc, line)?;
        }
        Ok(worked)
    }

    // Takes the next line of a text.
    fn take(&mut self, alloc: Global, line: &str) -> Result<(), NoMemory> {
        if let Some(table) = line.strip_prefix("#@ ") {
            self.files.push(table_file(alloc, table)?)?;
        } else if let Some(said) = line.strip_prefix("#> ") {
            add(&mut self.out, said)?;
        } else if let Some(said) = line.strip_prefix("#! ") {
            add(&mut self.err, said)?;
        } else {
            add(&mut self.script, line)?;
        }
        Ok(())
    }
}

// Adds a line to a text.
fn add(text: &mut String, line: &str) -> Result<(), NoMemory> {
    text.push_str(line)?;
    text.push('\n')?;
    Ok(())
}

/// The lines of a text that has ` / ` between them.
pub fn lines(alloc: Global, text: &str) -> Result<Vec<u8>, NoMemory> {
    let mut bytes = Vec::new(alloc);
    for line in text.split(" / ") {
        bytes.extend_from_slice(line.as_bytes())?;
        bytes.push(b'\n')?;
    }
    Ok(bytes)
}

/// A file of these bytes.
pub fn file(alloc: Global, name: &str, bytes: Vec<u8>) -> Result<WorkedFile, NoMemory> {
    Ok(WorkedFile {
        name: Name::of(alloc, name.as_bytes())?,
        bytes: Sequence::from_vec(bytes),
    })
}

/// A file of a name and, behind `: `, its records, with ` / ` between them.
pub fn table_file(alloc: Global, line: &str) -> Result<WorkedFile, NoMemory> {
    match line.split_once(": ") {
        Some((name, records)) => file(alloc, name, lines(alloc, records)?),
        None => file(alloc, line, Vec::new(alloc)),
    }
}

/// A text that many times, between two others.
pub fn repeated(
    alloc: Global,
    before: &[u8],
    text: &[u8],
    times: usize,
    behind: &[u8],
) -> Result<Vec<u8>, NoMemory> {
    let mut script = Vec::from_slice(alloc, before)?;
    for _ in 0..times {
        script.extend_from_slice(text)?;
    }
    script.extend_from_slice(behind)?;
    Ok(script)
}
