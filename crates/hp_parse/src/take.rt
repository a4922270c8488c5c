// What the parser looks for and takes: signs, words, names and newlines.

ghost use Rattle.std.specs.Prelude.{◌≡◌, ◌≢◌, ◌≤◌, ◌↔◌, IsTrue, OnOk, IfOk, IfErr, MatchOption, if◌then◌else◌};
ghost use Rattle.hp_script.specs.declared.token.Keyword.TheVariants as words;
ghost use Rattle.hp_script.specs.Lexemes.{Newline, Identifier};
ghost use Rattle.hp_script.specs.Depth.{deepest};
ghost use Rattle.hp_parse.specs.Readers.{next, second, behind, behind_at, sign_in, word_in, name_in, operator_in, unary_in, begins_statement, syntax_at, NoNameBefore};

use crate::cursor::Cursor;
use crate::error::ParseError;
use hp_script::token::{Keyword, Lexeme, Sign};
use hp_script::tree::{BinOp, Level, UnOp};

impl<'a> Cursor<'a> {
    /// The sign that the next token is.
    pub fn sign(&self) -> Option<Sign>
        ensures { result ≡ sign_in (next self.now) }
    {
        match self.peek() {
            Some(Lexeme::Mark(sign)) => Some(sign),
            _ => None,
        }
    }

    /// The word that the next token is.
    pub fn word(&self) -> Option<Keyword>
        ensures { result ≡ word_in (next self.now) }
    {
        match self.peek() {
            Some(Lexeme::Word(word)) => Some(word),
            _ => None,
        }
    }

    /// The name that the next token is, where this sign stands behind it.
    pub fn name_before(&self, sign: Sign) -> Option<&'a [u8]>
        ensures { MatchOption result (NoNameBefore sign self.now)
            (λ name. (next self.now ≡ Some (Identifier name.now)) × (sign_in (second self.now) ≡ Some sign)) }
    {
        let Some(Lexeme::Identifier(name)) = self.peek() else {
            return None;
        };
        match self.peek_second() {
            Some(Lexeme::Mark(found)) if found == sign => Some(name),
            _ => None,
        }
    }

    /// The operator of this level that the next token is.
    pub fn operator(&self, level: Level) -> Option<(BinOp, bool)>
        ensures { result ≡ operator_in level (sign_in (next self.now)) }
    {
        match self.sign()? {
            Sign::Operator(op, dotted) if op.level() == level => Some((op, dotted)),
            _ => None,
        }
    }

    /// The operator with one operand that the next token is.
    pub fn unary_operator(&self) -> Option<(UnOp, bool)>
        ensures { result ≡ unary_in (sign_in (next self.now)) }
    {
        match self.sign()? {
            Sign::Operator(BinOp::Sub, false) => Some((UnOp::Neg, false)),
            Sign::Not(dotted) => Some((UnOp::Not, dotted)),
            _ => None,
        }
    }

    /// Whether the next token is this sign.
    pub fn is_at(&self, sign: Sign) -> bool
        ensures { IsTrue result ↔ (sign_in (next self.now) ≡ Some sign) }
    {
        self.sign() == Some(sign)
    }

    /// Takes the next token if it is this sign.
    pub fn takes(&mut self, sign: Sign) -> bool
        ensures next { IsTrue result ↔ (sign_in (next self.old) ≡ Some sign) }
        ensures taken { self.new ≡ (if result then behind self.old else self.old) }
    {
        let is_next = self.is_at(sign);
        if is_next {
            self.advance();
        }
        is_next
    }

    /// Takes the next token if it is this word.
    pub fn takes_word(&mut self, word: Keyword) -> bool
        ensures next { IsTrue result ↔ (word_in (next self.old) ≡ Some word) }
        ensures taken { self.new ≡ (if result then behind self.old else self.old) }
    {
        let is_next = self.word() == Some(word);
        if is_next {
            self.advance();
        }
        is_next
    }

    /// Takes the next token if it is a newline.
    pub fn takes_newline(&mut self) -> bool
        ensures next { IsTrue result ↔ (next self.old ≡ Some Newline) }
        ensures taken { self.new ≡ (if result then behind self.old else self.old) }
    {
        let is_next = matches!(self.peek(), Some(Lexeme::Newline));
        if is_next {
            self.advance();
        }
        is_next
    }

    /// Takes this sign, which has to be the next token.
    pub fn expect(&mut self, sign: Sign) -> Result<(), ParseError>
        ensures ok { OnOk result ((sign_in (next self.old) ≡ Some sign) × (self.new ≡ behind self.old)) }
        ensures refused { IfErr result (λ e. (e ≡ syntax_at self.old) × (sign_in (next self.old) ≢ Some sign)) }
    {
        if !self.takes(sign) {
            return Err(self.syntax());
        }
        Ok(())
    }

    /// Takes this sign, which has to be the next token, and goes back to the depth before what it closes.
    pub fn close(&mut self, sign: Sign, before: u32) -> Result<(), ParseError>
        requires { before ≤ deepest }
        ensures ok { OnOk result ((sign_in (next self.old) ≡ Some sign) × (self.new ≡ behind_at self.old self.old.number before)) }
        ensures refused { IfErr result (λ e. (e ≡ syntax_at self.old) × (sign_in (next self.old) ≢ Some sign)) }
    {
        self.expect(sign)?;
        self.restore(before);
        Ok(())
    }

    /// Takes the name that has to be the next token.
    pub fn name(&mut self) -> Result<&'a [u8], ParseError>
        ensures ok { IfOk result (λ name. (next self.old ≡ Some (Identifier name.now)) × (self.new ≡ behind self.old)) }
        ensures refused { IfErr result (λ e. (e ≡ syntax_at self.old) × (name_in (next self.old) ≡ None)) }
    {
        match self.peek() {
            Some(Lexeme::Identifier(name)) => {
                self.advance();
                Ok(name)
            }
            _ => Err(self.syntax()),
        }
    }

    /// Takes this word, which has to be the next token.
    pub fn expect_word(&mut self, word: Keyword) -> Result<(), ParseError>
        ensures ok { OnOk result ((word_in (next self.old) ≡ Some word) × (self.new ≡ behind self.old)) }
        ensures refused { IfErr result (λ e. (e ≡ syntax_at self.old) × (word_in (next self.old) ≢ Some word)) }
    {
        if !self.takes_word(word) {
            return Err(self.syntax());
        }
        Ok(())
    }

    /// Takes the `end` that has to be the next token, and goes back to the depth before its statement.
    pub fn end(&mut self, before: u32) -> Result<(), ParseError>
        requires { before ≤ deepest }
        ensures ok { OnOk result ((word_in (next self.old) ≡ Some words.End) × (self.new ≡ behind_at self.old self.old.number before)) }
        ensures refused { IfErr result (λ e. (e ≡ syntax_at self.old) × (word_in (next self.old) ≢ Some words.End)) }
    {
        self.expect_word(Keyword::End)?;
        self.restore(before);
        Ok(())
    }

    /// Whether no token is left.
    pub fn is_at_end(&self) -> bool
        ensures { IsTrue result ↔ (next self.now ≡ None) }
    {
        self.peek().is_none()
    }

    /// Whether the next token begins a statement.
    pub fn begins_statement(&self) -> bool
        ensures { result ≡ begins_statement (next self.now) }
    {
        match self.peek() {
            Some(Lexeme::Identifier(_)) => true,
            Some(Lexeme::Word(word)) => matches!(
                word,
                Keyword::Println | Keyword::WriteCsv | Keyword::If | Keyword::While
            ),
            _ => false,
        }
    }

    /// Takes a newline, which has to be the next token.
    pub fn expect_newline(&mut self) -> Result<(), ParseError>
        ensures ok { OnOk result ((next self.old ≡ Some Newline) × (self.new ≡ behind self.old)) }
        ensures refused { IfErr result (λ e. (e ≡ syntax_at self.old) × (next self.old ≢ Some Newline)) }
    {
        if !self.takes_newline() {
            return Err(self.syntax());
        }
        Ok(())
    }

    /// Takes the newline that has to end a statement, and goes back to the depth before it.
    pub fn end_line(&mut self, before: u32) -> Result<(), ParseError>
        requires { before ≤ deepest }
        ensures ok { OnOk result ((next self.old ≡ Some Newline) × (self.new ≡ behind_at self.old self.old.number before)) }
        ensures refused { IfErr result (λ e. (e ≡ syntax_at self.old) × (next self.old ≢ Some Newline)) }
    {
        self.expect_newline()?;
        self.restore(before);
        Ok(())
    }
}
