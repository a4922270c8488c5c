// What `check` says of a text, and worked texts of which it has to be said.

ghost use Rattle.hp_script.specs.Tokens.{HasTokens};

use hp_lex::lexer::{LexError, lex};
use hp_parse::error::ParseError;
use hp_parse::parse::parse;
use hp_script::rule::Refusal;
use hp_script::token::Tokens;
use hp_script::tree::Script;
use hp_types::check::check;
use hp_types::error::CheckError;
use hp_word::place::NoMemory;
use hp_worked::Worked;
use std::alloc::Global;
use std::test::Fail;

// Why a script does not fit, if it does not.
fn misfit(alloc: Global, script: Script) -> Result<Option<Refusal>, NoMemory> {
    match check(alloc, script) {
        Ok(_) => Ok(None),
        Err(CheckError::Refused(refusal)) => Ok(Some(refusal)),
        Err(CheckError::NoMemory) => Err(NoMemory),
    }
}

// Why tokens are no script that fits, if they are none.
fn refusal_of(alloc: Global, tokens: &Tokens) -> Result<Option<Refusal>, NoMemory>
    requires { HasTokens tokens.now.source tokens.now.list }
{
    match parse(alloc, tokens) {
        Ok(script) => misfit(alloc, script),
        Err(ParseError::Refused(refusal)) => Ok(Some(refusal)),
        Err(ParseError::NoMemory) => Err(NoMemory),
    }
}

// Why bytes are no script that fits, if they are none.
fn refused(alloc: Global, source: &[u8]) -> Result<Option<Refusal>, NoMemory> {
    match lex(alloc, source) {
        Ok(tokens) => refusal_of(alloc, &tokens),
        Err(LexError::Refused(refusal)) => Ok(Some(refusal)),
        Err(LexError::NoMemory) => Err(NoMemory),
    }
}

/// The line that is said of a script.
pub fn said(alloc: Global, source: &[u8]) -> Result<String, NoMemory> {
    match refused(alloc, source)? {
        Some(refusal) => {
            let Refusal { at, rule } = refusal;
            let line = at.line;
            let col = at.col;
            Ok(format!(in alloc; "{line}:{col}: {rule}\n")?)
        }
        None => Ok(String::from_str(alloc, "ok\n")?),
    }
}

/// Whether this line is said of a script.
pub fn says(alloc: Global, source: &[u8], line: &str) -> Result<bool, NoMemory> {
    Ok(said(alloc, source)?.as_str() == line)
}

// What is said of a worked script, and behind it the script, where it is something else than it has to be.
fn other(alloc: Global, worked: &Worked) -> Result<Option<String>, NoMemory> {
    let found = said(alloc, worked.script.as_bytes())?;
    if found.as_str() == worked.out.as_str() || found.as_str() == worked.err.as_str() {
        return Ok(None);
    }
    let script = worked.script.as_str();
    Ok(Some(format!(in alloc; "{found}{script}")?))
}

// The first script of a text of which something else is said, and what.
fn first_other(alloc: Global, text: &str) -> Result<Option<String>, NoMemory> {
    for one in text.split("\n\n") {
        let found = other(alloc, &Worked::read(alloc, one)?)?;
        if found.is_some() {
            return Ok(found);
        }
    }
    Ok(None)
}

/// Fails at the first script of a text of which something else is said.
pub fn hold(alloc: Global, text: &str) -> Result<(), Fail> {
    match first_other(alloc, text)? {
        None => Ok(()),
        Some(found) => Err(Fail::new(found)),
    }
}
