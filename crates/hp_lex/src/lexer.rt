// From the bytes of a script to its tokens.

ghost use Rattle.std.specs.Prelude.{◌≡◌, ◌+◌, ◌^◌, ◌<◌, ◌≤◌, List, length, IfOk, IfErr, OnOk, ◌++◌};
ghost use Rattle.hp_word.specs.declared.place.Place.{Place};
ghost use Rattle.hp_script.specs.declared.rule.Rule.{Rule};
ghost use Rattle.hp_script.specs.declared.token.Token.{Token};
ghost use Rattle.hp_script.specs.Lexemes.{AreReadable};
ghost use Rattle.hp_script.specs.Tokens.{HasTokens, HasNoTokens, IsPiece, behind, token_of};
ghost use Rattle.hp_lex.specs.Fronts.{piece_of, is_wide};
ghost use Rattle.hp_lex.specs.Lexing.{AreTokensOf, RefusedBy, IsLexedAs, IsRefusedAs};
ghost use Rattle.hp_lex.specs.declared.lexer.LexError.TheVariants.{Refused, NoMemory};

use crate::front::{Piece, first_piece};
use hp_script::rule::{Refusal, Rule};
use hp_script::token::{Kind, Token, Tokens, number_of};
use hp_word::place::Place;
use hp_word::sequence::Sequence;
use std::alloc::{AllocError, Global};
use thiserror::Error;

/// The most bytes that a script has.
pub const MAX_SCRIPT: usize = 65_536;

/// Why a script has no tokens.
#[derive(Clone, Copy, Debug, PartialEq, Eq, Error)]
pub enum LexError {
    /// The bytes are refused.
    #[error(transparent)]
    Refused(Refusal),
    /// Memory was refused.
    #[error("out of memory")]
    NoMemory,
}

impl From<AllocError> for LexError {
    ghost from_gives = { λ _ e. e ≡ NoMemory };

    fn from(_error: AllocError) -> LexError {
        LexError::NoMemory
    }
}

/// The place behind a text that begins at a place.
fn behind(at: Place, text: &[u8]) -> Place
    requires line { at.line + length text.now < 2 ^ 32 }
    requires col { at.col + length text.now < 2 ^ 32 }
    ensures { result ≡ behind at text.now }
{
    let mut at = at;
    for byte in text {
        if *byte == b'\n' {
            at.line += 1;
            at.col = 1;
        } else {
            at.col += 1;
        }
    }
    at
}

/// Whether a piece is a number above 2^63 - 1.
fn is_wide(piece: Piece, text: &[u8]) -> bool
    requires { IsPiece (piece_of piece) text.now }
    ensures { result ≡ is_wide (piece_of piece) text.now }
{
    match piece {
        Piece::Token(Kind::Number) => number_of(text).is_none(),
        _ => false,
    }
}

/// The refusal at a place.
fn refused(at: Place, rule: Rule) -> LexError
    ensures { result ≡ Refused (record { at = at; rule = rule }) }
{
    LexError::Refused(Refusal { at, rule })
}

/// Adds the token that a piece is, where it is one.
fn push(
    list: &mut Sequence<Token>,
    piece: Piece,
    at: Place,
    from: usize,
    until: usize,
) -> Result<(), LexError>
    requires from { from ≤ 65536 }
    requires until { until ≤ 65536 }
    ensures ok { OnOk result (list.new ≡ list.old ++ token_of (piece_of piece) at from until) }
    ensures err { IfErr result (λ error. error ≡ NoMemory) }
{
    if let Piece::Token(kind) = piece {
        list.push(Token {
            kind,
            at,
            from: from as u32,
            until: until as u32,
        })?;
    }
    Ok(())
}

/// The tokens of a script that is not too long.
fn tokens_of(alloc: Global, bytes: &[u8]) -> Result<Sequence<Token>, LexError>
    requires { length bytes.now ≤ 65536 }
    ensures ok { IfOk result (HasTokens bytes.now) }
    ensures refused { IfErr result (RefusedBy (HasNoTokens bytes.now)) }
{
    let mut list = Sequence::new(alloc);
    let mut at = Place { line: 1, col: 1 };
    let mut from = 0;
    while from < bytes.len() {
        let Some(front) = first_piece(&bytes[from..]) else {
            return Err(refused(at, Rule::BadByte));
        };
        let until = from + front.size;
        let text = &bytes[from..until];
        if is_wide(front.piece, text) {
            return Err(refused(at, Rule::WideNumber));
        }
        push(&mut list, front.piece, at, from, until)?;
        at = behind(at, text);
        from = until;
    }
    push(&mut list, Piece::Token(Kind::Eof), at, from, from)?;
    Ok(list)
}

/// The tokens of a script, or why it has none.
fn lexed(alloc: Global, bytes: &[u8]) -> Result<Tokens, LexError>
    ensures ok { IfOk result (AreTokensOf bytes.now) }
    ensures refused { IfErr result (RefusedBy (HasNoTokens bytes.now)) }
{
    if bytes.len() > MAX_SCRIPT {
        return Err(refused(Place { line: 1, col: 1 }, Rule::TooLongScript));
    }
    let list = tokens_of(alloc, bytes)?;
    let source = Sequence::from_slice(alloc, bytes)?;
    Ok(Tokens { source, list })
}

/// The tokens of a script.
///
/// Errors: `Refused` where the bytes have none, with the place and the rule; `NoMemory` where memory was refused.
pub fn lex(alloc: Global, bytes: &[u8]) -> Result<Tokens, LexError>
    // The tokens are those of the bytes.
    ensures ok { IfOk result (AreTokensOf bytes.now) }
    // A script that has tokens gives them, unless memory runs out.
    ensures only { (list : List Token) → HasTokens bytes.now list → IsLexedAs list result }
    // Why and where the bytes have no tokens.
    ensures refused { IfErr result (RefusedBy (HasNoTokens bytes.now)) }
    // Bytes that have no tokens are refused so, unless memory runs out.
    ensures only_refused { (at : Place) (rule : Rule) → HasNoTokens bytes.now at rule → IsRefusedAs at rule result }
    // What the tokens say can be read.
    ensures readable { IfOk result (λ tokens. AreReadable tokens.source tokens.list) }
{
    lexed(alloc, bytes)
}
