// The piece at the front of bytes: blanks, comments and the texts of tokens.

ghost use Rattle.std.specs.Prelude.{◌≡◌, ◌+◌, ◌≤◌, length, IfSome, IsTrue};
ghost use Rattle.std.specs.Option.{option_map};
ghost use Rattle.std.specs.List.{prefix_len};
ghost use Rattle.std.specs.Char.{is_ascii_digit};
ghost use Rattle.hp_script.specs.Tokens.{goes_on_name, is_plain, is_inline};
ghost use Rattle.hp_lex.specs.Fronts.{class_of, front_of, front_at, word_at, is_quote, quoted_at, is_sign_at, sign_at};

use hp_script::token::{Keyword, Kind, Sign};

/// A piece of a script: what stands between tokens, or a token.
#[derive(Clone, Copy, Debug, PartialEq, Eq)]
pub enum Piece {
    Blank,
    Comment,
    Token(Kind),
}

/// A piece at the front of bytes, and how many of them it takes.
#[derive(Clone, Copy, Debug, PartialEq, Eq)]
pub struct Front {
    pub piece: Piece,
    pub size: usize,
}

/// What a byte begins.
#[derive(Clone, Copy, Debug, PartialEq, Eq)]
pub enum Class {
    Blank,
    Comment,
    Word,
    Number,
    Text,
    Line,
    /// A sign, or nothing.
    Other,
}

/// What a byte begins.
fn class_of(byte: u8) -> Class
    ensures { result ≡ class_of byte }
{
    match byte {
        b' ' | b'\t' | b'\r' => Class::Blank,
        b'#' => Class::Comment,
        b'A'..=b'Z' | b'a'..=b'z' | b'_' => Class::Word,
        b'0'..=b'9' => Class::Number,
        b'"' => Class::Text,
        b'\n' => Class::Line,
        _ => Class::Other,
    }
}

/// Whether a byte goes on a name: a letter, a digit or `_`.
fn goes_on_name(byte: u8) -> bool
    ensures { result ≡ goes_on_name byte }
{
    byte.is_ascii_alphabetic() || byte == b'_' || byte.is_ascii_digit()
}

/// Whether a byte stands in a text: from 32 to 126, and neither a quote nor a backslash.
fn is_plain(byte: u8) -> bool
    ensures { result ≡ is_plain byte }
{
    31 < byte && byte < 127 && byte != b'"' && byte != b'\\'
}

/// Whether a byte is no newline.
fn is_inline(byte: u8) -> bool
    ensures { result ≡ is_inline byte }
{
    byte != b'\n'
}

/// How many bytes at the front go on a name.
fn name_bytes(bytes: &[u8]) -> usize
    ensures count { result ≡ prefix_len goes_on_name bytes.now }
    ensures within { result ≤ length bytes.now }
{
    bytes.iter().take_while(|byte| goes_on_name(**byte)).count()
}

/// How many decimal digits stand at the front.
fn digits(bytes: &[u8]) -> usize
    ensures count { result ≡ prefix_len is_ascii_digit bytes.now }
    ensures within { result ≤ length bytes.now }
{
    bytes
        .iter()
        .take_while(|byte| byte.is_ascii_digit())
        .count()
}

/// How many bytes at the front stand in a text.
fn plain_bytes(bytes: &[u8]) -> usize
    ensures count { result ≡ prefix_len is_plain bytes.now }
    ensures within { result ≤ length bytes.now }
{
    bytes.iter().take_while(|byte| is_plain(**byte)).count()
}

/// How many bytes at the front are no newline.
fn inline_bytes(bytes: &[u8]) -> usize
    ensures count { result ≡ prefix_len is_inline bytes.now }
    ensures within { result ≤ length bytes.now }
{
    bytes.iter().take_while(|byte| is_inline(**byte)).count()
}

/// The word or name at the front.
#[tactic(auto, unfolding(crate::specs::Fronts::word_at))]
fn word(bytes: &[u8]) -> Front
    ensures value { front_of result ≡ word_at bytes.now }
    ensures within { result.size ≤ length bytes.now }
{
    let size = name_bytes(bytes);
    let kind = match Keyword::of(&bytes[..size]) {
        Some(_) => Kind::Word,
        None => Kind::Name,
    };
    Front {
        piece: Piece::Token(kind),
        size,
    }
}

/// Whether a quote stands at a position.
fn is_quote(bytes: &[u8], at: usize) -> bool
    ensures { result ≡ is_quote bytes.now at }
{
    at < bytes.len() && bytes[at] == b'"'
}

/// How long the text is whose first quote stands before the bytes.
#[tactic(auto, unfolding(crate::specs::Fronts::quoted_at))]
fn quoted(bytes: &[u8]) -> Option<usize>
    ensures value { result ≡ quoted_at bytes.now }
    ensures within { IfSome result (λ size. size ≤ length bytes.now + 1) }
{
    let size = plain_bytes(bytes);
    if size == 0 || size > 255 || !is_quote(bytes, size) {
        return None;
    }
    Some(size + 2)
}

/// Whether so many bytes at the front are a sign.
#[tactic(auto, unfolding(crate::specs::Fronts::is_sign_at))]
fn is_sign(bytes: &[u8], size: usize) -> bool
    ensures value { result ≡ is_sign_at bytes.now size }
    ensures within { IsTrue result → size ≤ length bytes.now }
{
    size <= bytes.len() && Sign::of(&bytes[..size]).is_some()
}

/// How long the longest sign at the front is.
#[tactic(auto, unfolding(crate::specs::Fronts::sign_at))]
fn sign(bytes: &[u8]) -> Option<usize>
    ensures value { result ≡ sign_at bytes.now }
    ensures within { IfSome result (λ size. size ≤ length bytes.now) }
{
    if is_sign(bytes, 3) {
        return Some(3);
    }
    if is_sign(bytes, 2) {
        return Some(2);
    }
    if is_sign(bytes, 1) {
        return Some(1);
    }
    None
}

/// The longest piece at the front.
#[tactic(auto, unfolding(crate::specs::Fronts::front_at))]
pub fn first_piece(bytes: &[u8]) -> Option<Front>
    ensures value { option_map front_of result ≡ front_at bytes.now }
    ensures within { IfSome result (λ front. front.size ≤ length bytes.now) }
{
    let (first, rest) = bytes.split_first()?;
    match class_of(*first) {
        Class::Blank => Some(Front {
            piece: Piece::Blank,
            size: 1,
        }),
        Class::Comment => Some(Front {
            piece: Piece::Comment,
            size: 1 + inline_bytes(rest),
        }),
        Class::Word => Some(word(bytes)),
        Class::Number => Some(Front {
            piece: Piece::Token(Kind::Number),
            size: digits(bytes),
        }),
        Class::Text => Some(Front {
            piece: Piece::Token(Kind::Text),
            size: quoted(rest)?,
        }),
        Class::Line => Some(Front {
            piece: Piece::Token(Kind::Line),
            size: 1,
        }),
        Class::Other => Some(Front {
            piece: Piece::Token(Kind::Sign),
            size: sign(bytes)?,
        }),
    }
}
