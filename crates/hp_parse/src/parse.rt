// From the tokens of a script to its tree.

ghost use Rattle.std.specs.Prelude.{ℕ, List, IfOk, IfErr};
ghost use Rattle.hp_word.specs.declared.place.Place.{Place};
ghost use Rattle.hp_script.specs.declared.rule.Rule.{Rule};
ghost use Rattle.hp_script.specs.declared.tree.Stmt.{Stmt};
ghost use Rattle.hp_script.specs.Tokens.{HasTokens};
ghost use Rattle.hp_parse.specs.Parsing.{AreScript, AreNoScript, IsScriptOf, RefusedBy, IsParsedAs, IsRefusedAs, ReadsScript, StopsAs};

use crate::cursor::Cursor;
use crate::error::ParseError;
use crate::stmt::body;
use hp_script::token::Tokens;
use hp_script::tree::Script;
use std::alloc::Global;

/// The script that tokens spell.
///
/// Errors: `Refused` where they are no script, with the place and the rule; `NoMemory` where memory was refused.
pub fn parse(alloc: Global, tokens: &Tokens) -> Result<Script, ParseError>
    // The tokens are those of their source, with the end of the script as the last.
    requires lexed { HasTokens tokens.now.source tokens.now.list }
    // The tokens spell the script, and none of them is too deep.
    ensures ok { IfOk result (IsScriptOf tokens.now.source tokens.now.list) }
    // Tokens that spell a script within the depth give it, unless memory runs out.
    ensures only { (body : List Stmt) (nodes : ℕ) → AreScript tokens.now.source tokens.now.list body nodes → IsParsedAs body nodes result }
    // Why and where the tokens are no script.
    ensures refused { IfErr result (RefusedBy (AreNoScript tokens.now.source tokens.now.list)) }
    // Tokens that are no script are refused so, unless memory runs out.
    ensures only_refused { (at : Place) (rule : Rule) → AreNoScript tokens.now.source tokens.now.list at rule → IsRefusedAs at rule result }
{
    parsed(alloc, tokens)
}

/// The script that the tokens spell, as the machine reads it.
fn parsed(alloc: Global, tokens: &Tokens) -> Result<Script, ParseError>
    requires lexed { HasTokens tokens.now.source tokens.now.list }
    ensures read { IfOk result (ReadsScript tokens.now.source tokens.now.list) }
    ensures stopped { IfErr result (StopsAs tokens.now.source tokens.now.list) }
{
    let mut cursor = Cursor::new(alloc, tokens);
    let body = match body(&mut cursor) {
        Ok(body) => body,
        Err(error) => return Err(error),
    };
    let nodes = cursor.number();
    Ok(Script { body, nodes })
}
