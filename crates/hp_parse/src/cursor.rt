// Where the parser is among the tokens: what is left of them, the number of the next node, and the depth.

ghost use Rattle.std.specs.Prelude.{◌≡◌, ◌≤◌, ◌<◌, suc, IsSome, OnOk, IfOk, IfErr};
ghost use Rattle.std.specs.Option.{option_map};
ghost use Rattle.hp_script.specs.Lexemes.{seen};
ghost use Rattle.hp_script.specs.Tokens.{HasTokens};
ghost use Rattle.hp_script.specs.Depth.{deepest};
ghost use Rattle.hp_parse.specs.Readers.{reader_at, next, second, here, behind, behind_at, numbered, restored, raised, refusal, syntax_at, too_deep_at};

use crate::error::ParseError;
use crate::node::Head;
use hp_script::rule::{Refusal, Rule};
use hp_script::token::{Lexeme, Tokens};
use hp_word::place::{NodeId, Place};
use std::alloc::Global;
use std::marker::Model;

/// The greatest depth of a script.
const DEEPEST: u32 = 64;

/// A place among tokens. Each node takes a token of its own, so numbers never run out.
#[derive(Drop)]
pub struct Cursor<'a> {
    tokens: &'a Tokens,
    position: usize,
    number: u32,
    depth: u32,
    alloc: Global,
}

impl<'a> Model for Cursor<'a> {
    ghost use Rattle.hp_parse.specs.Readers.{Reader, reader_at, IsAmong};

    ghost Value = { Reader };

    ghost view = { λ c. reader_at c.tokens.now.source c.tokens.now.list c.position c.number c.depth };

    ghost invariant = { λ c. IsAmong c.tokens.now.source c.tokens.now.list c.position c.number c.depth };
}

impl<'a> Cursor<'a> {
    /// Before the first token.
    pub fn new(alloc: Global, tokens: &'a Tokens) -> Cursor<'a>
        requires { HasTokens tokens.now.source tokens.now.list }
        ensures { result ≡ reader_at tokens.now.source tokens.now.list 0 0 0 }
    {
        Cursor {
            tokens,
            position: 0,
            number: 0,
            depth: 0,
            alloc,
        }
    }

    /// The allocator of the nodes.
    pub fn alloc(&self) -> Global {
        self.alloc
    }

    /// What the next token says; nothing at the end.
    pub fn peek(&self) -> Option<Lexeme<'a>>
        ensures { option_map seen result ≡ next self.now }
    {
        self.tokens.lexeme(self.position)
    }

    /// What the token behind the next one says.
    pub fn peek_second(&self) -> Option<Lexeme<'a>>
        ensures { option_map seen result ≡ second self.now }
    {
        self.tokens.lexeme(self.position + 1)
    }

    /// The place of the next token, or of the end.
    pub fn place(&self) -> Place
        ensures { result ≡ here self.now }
    {
        self.tokens.list.as_slice()[self.position].at
    }

    /// The number of nodes so far.
    pub fn number(&self) -> u32
        ensures { result ≡ self.now.number }
    {
        self.number
    }

    /// The depth.
    pub fn depth(&self) -> u32
        ensures value { result ≡ self.now.depth }
        ensures shallow { result ≤ deepest }
    {
        self.depth
    }

    /// Takes the next token.
    pub fn advance(&mut self)
        requires { IsSome (next self.old) }
        ensures { self.new ≡ behind self.old }
    {
        self.position += 1;
    }

    /// Takes the next token as a node's own.
    pub fn head(&mut self) -> Head
        requires { IsSome (next self.old) }
        ensures id { result.id.0 ≡ self.old.number }
        ensures at { result.at ≡ here self.old }
        ensures taken { self.new ≡ numbered self.old }
    {
        let head = Head {
            id: NodeId(self.number),
            at: self.place(),
        };
        self.number += 1;
        self.position += 1;
        head
    }

    /// Raises the depth for the next token.
    pub fn deepen(&mut self, by: u32) -> Result<(), ParseError>
        requires { by ≤ 2 }
        ensures ok { OnOk result ((self.new ≡ restored self.old (raised by self.old.depth)) × (raised by self.old.depth ≤ deepest)) }
        ensures refused { IfErr result (λ e. (e ≡ too_deep_at self.old) × (deepest < raised by self.old.depth)) }
    {
        if self.depth + by > DEEPEST {
            return Err(self.refusal(Rule::TooDeep));
        }
        self.depth += by;
        Ok(())
    }

    /// Takes the next token, which raises the depth, and gives the depth before it.
    pub fn open(&mut self) -> Result<u32, ParseError>
        requires { IsSome (next self.old) }
        ensures before { IfOk result (λ before. before ≡ self.old.depth) }
        ensures ok { OnOk result ((self.new ≡ behind_at self.old self.old.number (suc self.old.depth)) × (suc self.old.depth ≤ deepest)) }
        ensures refused { IfErr result (λ e. (e ≡ too_deep_at self.old) × (deepest < suc self.old.depth)) }
    {
        let before = self.depth();
        self.deepen(1)?;
        self.advance();
        Ok(before)
    }

    /// Goes back to a depth.
    pub fn restore(&mut self, depth: u32)
        requires { depth ≤ deepest }
        ensures { self.new ≡ restored self.old depth }
    {
        self.depth = depth;
    }

    /// The next token breaks this rule.
    fn refusal(&self, rule: Rule) -> ParseError
        ensures { result ≡ refusal (here self.now) rule }
    {
        ParseError::Refused(Refusal {
            at: self.place(),
            rule,
        })
    }

    /// The next token is not what has to stand there.
    pub fn syntax(&self) -> ParseError
        ensures { result ≡ syntax_at self.now }
    {
        self.refusal(Rule::Syntax)
    }
}
