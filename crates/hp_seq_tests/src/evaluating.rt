// What a script writes and how it ends, and worked texts of which that has to be so.

use hp_lex::lexer::lex;
use hp_meaning::seq::{SeqEnd, SeqStatus, Stop, evaluated};
use hp_parse::parse::parse;
use hp_script::tree::Script;
use hp_word::order::Orders;
use hp_word::place::NoMemory;
use hp_word::sequence::Sequence;
use hp_word::table::Tables;
use hp_worked::Worked;
use std::alloc::Global;
use std::test::Fail;

/// The script of a source.
pub fn parsed(alloc: Global, source: &[u8]) -> Option<Script> {
    let tokens = lex(alloc, source).ok()?;
    parse(alloc, &tokens).ok()
}

/// What a script means under orders, over no tables, with so many loop turns.
pub fn meant(alloc: Global, script: &Script, orders: &Orders, turns: u64) -> Result<SeqEnd, Stop> {
    let tables = Tables {
        list: Sequence::new(alloc),
    };
    evaluated(alloc, script, &tables, orders, turns)
}

// The line that says how a script ends; none where it is done.
fn line(alloc: Global, status: SeqStatus) -> Result<String, NoMemory> {
    match status {
        SeqStatus::Done => Ok(String::new(alloc)),
        SeqStatus::Trap(at, kind) => {
            let line = at.line;
            let col = at.col;
            Ok(format!(in alloc; "{line}:{col}: trap {kind:?}\n")?)
        }
        SeqStatus::Fuel => Ok(String::from_str(alloc, "turns spent\n")?),
    }
}

// What was written, and behind it the line that says how the script ends.
fn told(alloc: Global, end: &SeqEnd) -> Result<String, NoMemory> {
    let mut told = String::new(alloc);
    told.push_str(&String::from_utf8_lossy(alloc, end.out.as_slice())?)?;
    told.push_str(&line(alloc, end.status)?)?;
    Ok(told)
}

/// What a script writes under the plain orders, and how it ends; nothing where the source is no script, or memory was
/// refused.
pub fn answered(alloc: Global, source: &[u8], turns: u64) -> Option<String> {
    let script = parsed(alloc, source)?;
    let orders = Orders {
        list: Sequence::new(alloc),
    };
    let end = meant(alloc, &script, &orders, turns).ok()?;
    told(alloc, &end).ok()
}

// Whether this is what has to be said of a worked script.
fn is_said(worked: &Worked, found: &str) -> bool {
    found.strip_prefix(worked.out.as_str()) == Some(worked.err.as_str())
}

// What is said of a worked script, and behind it the script, where it is something else than it has to be.
fn other(alloc: Global, worked: &Worked, turns: u64) -> Option<Option<String>> {
    let script = worked.script.as_str();
    let found = answered(alloc, script.as_bytes(), turns)?;
    if is_said(worked, &found) {
        return Some(None);
    }
    Some(Some(format!(in alloc; "{found}{script}").ok()?))
}

// The first script of a text of which something else is said, and what.
fn first_other(alloc: Global, text: &str, turns: u64) -> Result<Option<String>, NoMemory> {
    for one in text.split("\n\n") {
        let worked = Worked::read(alloc, one)?;
        match other(alloc, &worked, turns) {
            Some(None) => {}
            Some(found) => return Ok(found),
            None => return Ok(Some(worked.script)),
        }
    }
    Ok(None)
}

/// Fails at the first script of a text of which, with so many loop turns, something else is said.
pub fn hold(alloc: Global, text: &str, turns: u64) -> Result<(), Fail> {
    match first_other(alloc, text, turns)? {
        None => Ok(()),
        Some(found) => Err(Fail::new(found)),
    }
}
