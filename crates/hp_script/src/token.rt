// Tokens of a script: what they are, and the pieces of the text that they take.

ghost use Rattle.std.specs.Prelude.{◌≡◌, ◌≤◌, length, IsTrue, nat_lt, if◌then◌else◌, pos, slice_get};
ghost use Rattle.std.specs.Option.{option_map, option_and_then};
ghost use Rattle.std.specs.Str.Parse.{AllDigits, digits_value};
ghost use Rattle.hp_script.specs.Lexemes.{keyword_of, sign_of, entry, plain_table, dotted_table, mark_table, text_of, unquoted, lexeme_of, seen, AreReadable};
ghost use Rattle.hp_script.specs.Tokens.{are_spans};

use crate::tree::BinOp;
use hp_word::place::Place;
use hp_word::sequence::Sequence;

/// What a token is.
#[derive(Clone, Copy, Debug, PartialEq, Eq)]
pub enum Kind {
    /// Decimal digits.
    Number,
    /// A letter or `_`, then letters, digits and `_`, that is no word.
    Name,
    /// 1 to 255 printable bytes in quotes.
    Text,
    /// `if`, `else`, `end`, `while`, `true`, `false`, `println` or `write_csv`.
    Word,
    /// An operator, a bracket, or a sign between parts.
    Sign,
    /// The end of a line.
    Line,
    /// The end of the script.
    Eof,
}

/// A token: its kind, the place of its first byte, and where its text stands in the source, from the byte `from`
/// up to the byte before `until`.
#[derive(Clone, Copy, Debug, PartialEq, Eq)]
pub struct Token {
    pub kind: Kind,
    pub at: Place,
    pub from: u32,
    pub until: u32,
}

/// A source of at most 65,536 bytes, and tokens whose texts stand in it one after the other.
#[derive(Debug, Drop)]
pub struct Tokens {
    pub source: Sequence<u8>,
    pub list: Sequence<Token>,
    pub ghost short: { length source ≤ 65536 },
    pub ghost spans: { IsTrue (are_spans 0 (length source) list) },
}

/// A word that is no name.
#[derive(Clone, Copy, Debug, PartialEq, Eq)]
pub enum Keyword {
    If,
    Else,
    End,
    While,
    True,
    False,
    Println,
    WriteCsv,
}

/// A sign.
#[derive(Clone, Copy, Debug, PartialEq, Eq)]
pub enum Sign {
    /// The sign of an operator with two operands, and whether it has a dot. `-` is also that of the negation.
    Operator(BinOp, bool),
    /// `!`, or `.!` with a dot.
    Not(bool),
    /// `=`
    Assign,
    /// `->`
    Arrow,
    /// `(`
    Open,
    /// `)`
    Close,
    /// `[`
    OpenIndex,
    /// `]`
    CloseIndex,
    /// `,`
    Comma,
    /// `:`
    Colon,
    /// `.`
    Dot,
}

/// A token by what it says: a number by its value, a name and a text by their bytes, a text without its quotes.
#[derive(Clone, Copy, Debug)]
pub enum Lexeme<'a> {
    Numeral(i64),
    Identifier(&'a [u8]),
    Quoted(&'a [u8]),
    Word(Keyword),
    Mark(Sign),
    Newline,
}

impl Keyword {
    /// The word that a text is, where it is one.
    #[tactic(auto, unfolding(crate::specs::Lexemes::keyword_of))]
    pub fn of(text: &[u8]) -> Option<Keyword>
        ensures { result ≡ keyword_of text.now }
    {
        if text == b"if".as_slice() {
            return Some(Keyword::If);
        }
        if text == b"else".as_slice() {
            return Some(Keyword::Else);
        }
        if text == b"end".as_slice() {
            return Some(Keyword::End);
        }
        if text == b"while".as_slice() {
            return Some(Keyword::While);
        }
        if text == b"true".as_slice() {
            return Some(Keyword::True);
        }
        if text == b"false".as_slice() {
            return Some(Keyword::False);
        }
        if text == b"println".as_slice() {
            return Some(Keyword::Println);
        }
        if text == b"write_csv".as_slice() {
            return Some(Keyword::WriteCsv);
        }
        None
    }
}

impl Sign {
    /// The sign that a text is, where it is one.
    #[tactic(auto, unfolding(crate::specs::Lexemes::sign_of))]
    pub fn of(text: &[u8]) -> Option<Sign>
        ensures { result ≡ sign_of text.now }
    {
        match Sign::plain(text) {
            Some(sign) => Some(sign),
            None => match Sign::dotted(text) {
                Some(sign) => Some(sign),
                None => Sign::mark(text),
            },
        }
    }

    /// The operator without a dot that a text is.
    fn plain(text: &[u8]) -> Option<Sign>
        ensures { result ≡ entry plain_table text.now }
    {
        match text {
            b"+" => Some(Sign::Operator(BinOp::Add, false)),
            b"-" => Some(Sign::Operator(BinOp::Sub, false)),
            b"*" => Some(Sign::Operator(BinOp::Mul, false)),
            b"==" => Some(Sign::Operator(BinOp::Eq, false)),
            b"!=" => Some(Sign::Operator(BinOp::Ne, false)),
            b"<" => Some(Sign::Operator(BinOp::Lt, false)),
            b"<=" => Some(Sign::Operator(BinOp::Le, false)),
            b">" => Some(Sign::Operator(BinOp::Gt, false)),
            b">=" => Some(Sign::Operator(BinOp::Ge, false)),
            b"&&" => Some(Sign::Operator(BinOp::And, false)),
            b"||" => Some(Sign::Operator(BinOp::Or, false)),
            b"!" => Some(Sign::Not(false)),
            _ => None,
        }
    }

    /// The operator with a dot that a text is.
    fn dotted(text: &[u8]) -> Option<Sign>
        ensures { result ≡ entry dotted_table text.now }
    {
        match text {
            b".+" => Some(Sign::Operator(BinOp::Add, true)),
            b".-" => Some(Sign::Operator(BinOp::Sub, true)),
            b".*" => Some(Sign::Operator(BinOp::Mul, true)),
            b".==" => Some(Sign::Operator(BinOp::Eq, true)),
            b".!=" => Some(Sign::Operator(BinOp::Ne, true)),
            b".<" => Some(Sign::Operator(BinOp::Lt, true)),
            b".<=" => Some(Sign::Operator(BinOp::Le, true)),
            b".>" => Some(Sign::Operator(BinOp::Gt, true)),
            b".>=" => Some(Sign::Operator(BinOp::Ge, true)),
            b".&" => Some(Sign::Operator(BinOp::BitAnd, true)),
            b".|" => Some(Sign::Operator(BinOp::BitOr, true)),
            b".!" => Some(Sign::Not(true)),
            _ => None,
        }
    }

    /// The bracket, or the sign between parts, that a text is.
    fn mark(text: &[u8]) -> Option<Sign>
        ensures { result ≡ entry mark_table text.now }
    {
        match text {
            b"=" => Some(Sign::Assign),
            b"->" => Some(Sign::Arrow),
            b"(" => Some(Sign::Open),
            b")" => Some(Sign::Close),
            b"[" => Some(Sign::OpenIndex),
            b"]" => Some(Sign::CloseIndex),
            b"," => Some(Sign::Comma),
            b":" => Some(Sign::Colon),
            b"." => Some(Sign::Dot),
            _ => None,
        }
    }
}

/// The number that decimal digits write, where it is at most 2^63 - 1.
pub fn number_of(digits: &[u8]) -> Option<i64>
    requires { AllDigits 10 digits.now }
    ensures { result ≡ (if nat_lt 9223372036854775807 (digits_value 10 digits.now) then None else Some (pos (digits_value 10 digits.now))) }
{
    let greatest = i64::MAX as u64;
    let mut value = 0u64;
    for digit in digits {
        let units = (digit - b'0') as u64;
        if value > (greatest - units) / 10 {
            return None;
        }
        value = value * 10 + units;
    }
    Some(value as i64)
}

/// A text without its quotes.
fn unquoted(text: &[u8]) -> &[u8]
    ensures { result.now ≡ unquoted text.now }
{
    match text {
        [_, body @ .., _] => body,
        _ => &text[..0],
    }
}

impl Tokens {
    /// The text of a token.
    pub fn text(&self, token: Token) -> &[u8]
        requires order { token.from ≤ token.until }
        requires within { token.until ≤ length self.now.source }
        ensures { result.now ≡ text_of self.now.source token }
    {
        &self.source.as_slice()[token.from as usize..token.until as usize]
    }

    /// What the token at this position of the list says. Nothing for the end of the script, and behind the list.
    pub fn lexeme(&self, position: usize) -> Option<Lexeme<'_>>
        requires { AreReadable self.now.source self.now.list }
        ensures { option_map seen result
            ≡ option_and_then (λ token. lexeme_of token.kind (text_of self.now.source token)) (slice_get self.now.list position) }
    {
        let token = *self.list.get(position)?;
        let text = self.text(token);
        match token.kind {
            Kind::Number => Some(Lexeme::Numeral(number_of(text)?)),
            Kind::Name => Some(Lexeme::Identifier(text)),
            Kind::Text => Some(Lexeme::Quoted(unquoted(text))),
            Kind::Word => Some(Lexeme::Word(Keyword::of(text)?)),
            Kind::Sign => Some(Lexeme::Mark(Sign::of(text)?)),
            Kind::Line => Some(Lexeme::Newline),
            Kind::Eof => None,
        }
    }
}
