// From the bytes of a script to the script that fits.

ghost use Rattle.std.specs.Prelude.{◌≡◌, ℕ, List, None, IfOk, IfErr, MatchResult};
ghost use Rattle.std.specs.Result.{IsErrAnd};
ghost use Rattle.hp_word.specs.declared.place.Place.{Place};
ghost use Rattle.hp_script.specs.declared.rule.Rule.{Rule};
ghost use Rattle.hp_script.specs.declared.token.Token.{Token};
ghost use Rattle.hp_script.specs.declared.tree.Stmt.{Stmt};
ghost use Rattle.hp_script.specs.Checked.{Checked, first_break};
ghost use Rattle.hp_script.specs.Mirror.{block_of};
ghost use Rattle.hp_script.specs.Tokens.{HasTokens, HasNoTokens};
ghost use Rattle.hp_lex.specs.Lexing.{AreTokensOf};
ghost use Rattle.hp_parse.specs.Parsing.{AreScript, AreNoScript, IsScriptOf};
ghost use Rattle.hp_reader.specs.Answers.{RefusedBy, IsNoMemory, IsRefusal};
ghost use Rattle.hp_reader.specs.Reading.{SpellScript, SpellNone, Refuses, Fits, breaks_in};

use crate::error::ReadError;
use hp_lex::lexer::{LexError, lex};
use hp_parse::error::ParseError;
use hp_parse::parse::parse;
use hp_script::token::Tokens;
use hp_script::tree::Script;
use hp_script::typed::Typed;
use hp_types::check::check;
use hp_types::error::CheckError;
use std::alloc::Global;

/// The tokens of a script, or why there are none.
fn tokens_of(alloc: Global, bytes: &[u8]) -> Result<Tokens, ReadError>
    ensures ok { IfOk result (AreTokensOf bytes.now) }
    ensures only { (list : List Token) → HasTokens bytes.now list → MatchResult result (λ tokens. tokens.list ≡ list) IsNoMemory }
    ensures refused { IfErr result (RefusedBy (HasNoTokens bytes.now)) }
    ensures exact { (at : Place) (rule : Rule) → HasNoTokens bytes.now at rule → IsErrAnd result (IsRefusal at rule) }
{
    match lex(alloc, bytes) {
        Ok(tokens) => Ok(tokens),
        Err(LexError::Refused(refusal)) => Err(ReadError::Refused(refusal)),
        Err(LexError::NoMemory) => Err(ReadError::NoMemory),
    }
}

/// The script that tokens spell, or why they spell none.
fn script_of(alloc: Global, tokens: &Tokens) -> Result<Script, ReadError>
    requires { HasTokens tokens.now.source tokens.now.list }
    ensures ok { IfOk result (IsScriptOf tokens.now.source tokens.now.list) }
    ensures only { (body : List Stmt) (nodes : ℕ) → AreScript tokens.now.source tokens.now.list body nodes → MatchResult result (λ script. script.body ≡ body) IsNoMemory }
    ensures refused { IfErr result (RefusedBy (AreNoScript tokens.now.source tokens.now.list)) }
    ensures exact { (at : Place) (rule : Rule) → AreNoScript tokens.now.source tokens.now.list at rule → IsErrAnd result (IsRefusal at rule) }
{
    match parse(alloc, tokens) {
        Ok(script) => Ok(script),
        Err(ParseError::Refused(refusal)) => Err(ReadError::Refused(refusal)),
        Err(ParseError::NoMemory) => Err(ReadError::NoMemory),
    }
}

/// The script as one that fits, or why it does not.
fn typed_of(alloc: Global, script: Script) -> Result<Typed, ReadError>
    ensures checked { IfOk result Checked }
    ensures same { IfOk result (λ typed. typed.script ≡ script) }
    ensures refused { IfErr result (RefusedBy (breaks_in script.body)) }
    ensures exact { (at : Place) (rule : Rule) → breaks_in script.body at rule → IsErrAnd result (IsRefusal at rule) }
{
    match check(alloc, script) {
        Ok(typed) => Ok(typed),
        Err(CheckError::Refused(refusal)) => Err(ReadError::Refused(refusal)),
        Err(CheckError::NoMemory) => Err(ReadError::NoMemory),
    }
}

/// The script that bytes spell, or why they spell none.
fn script_in(alloc: Global, bytes: &[u8]) -> Result<Script, ReadError>
    ensures ok { IfOk result (λ script. SpellScript bytes.now script.body script.nodes) }
    ensures refused { IfErr result (RefusedBy (SpellNone bytes.now)) }
    ensures only { (body : List Stmt) (nodes : ℕ) → SpellScript bytes.now body nodes → MatchResult result (λ script. script.body ≡ body) IsNoMemory }
    ensures exact { (at : Place) (rule : Rule) → SpellNone bytes.now at rule → IsErrAnd result (IsRefusal at rule) }
{
    let tokens = match tokens_of(alloc, bytes) {
        Ok(tokens) => tokens,
        Err(error) => return Err(error),
    };
    script_of(alloc, &tokens)
}

/// The script that bytes spell and that fits.
///
/// Errors: `Refused` where there is none, with the place and the rule; `NoMemory` where memory was refused.
pub fn read_script(alloc: Global, bytes: &[u8]) -> Result<Typed, ReadError>
    // The bytes spell the script, which fits.
    ensures fits { IfOk result (Fits bytes.now) }
    // A script that the bytes spell and that fits is given, unless memory runs out.
    ensures only { (body : List Stmt) (nodes : ℕ) → SpellScript bytes.now body nodes → first_break (block_of body) ≡ None → MatchResult result (λ typed. typed.script.body ≡ body) IsNoMemory }
    // Why and where the bytes are no script that fits.
    ensures refused { IfErr result (RefusedBy (Refuses bytes.now)) }
    // Bytes that are none are refused so, unless memory runs out.
    ensures exact { (at : Place) (rule : Rule) → Refuses bytes.now at rule → IsErrAnd result (IsRefusal at rule) }
{
    match script_in(alloc, bytes) {
        Ok(script) => typed_of(alloc, script),
        Err(error) => Err(error),
    }
}
