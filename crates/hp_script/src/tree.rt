// Scripts as trees.

ghost use Rattle.std.specs.Prelude.{◌≡◌, ◌≤◌};
ghost use Rattle.std.specs.List.{range_with_len};
ghost use Rattle.hp_script.specs.Mirror.{block_of};
ghost use Rattle.hp_script.specs.Nodes.{nodes_of};
ghost use Rattle.hp_script.specs.Grammar.{level_of, tighter};

use hp_word::name::Name;
use hp_word::place::{NodeId, Place};
use sqlite_items::{Boxed, Items};

/// An operator with one operand.
#[derive(Clone, Copy, Debug, PartialEq, Eq)]
pub enum UnOp {
    Neg,
    Not,
}

/// An operator with two operands.
#[derive(Clone, Copy, Debug, PartialEq, Eq)]
pub enum BinOp {
    /// `||`
    Or,
    /// `&&`
    And,
    Eq,
    Ne,
    Lt,
    Le,
    Gt,
    Ge,
    Add,
    Sub,
    /// `.|`
    BitOr,
    Mul,
    /// `.&`
    BitAnd,
}

impl BinOp {
    /// How tightly the operator binds.
    pub fn level(self) -> Level
        ensures { result ≡ level_of self }
    {
        match self {
            BinOp::Or => Level::Disjunction,
            BinOp::And => Level::Conjunction,
            BinOp::Eq | BinOp::Ne | BinOp::Lt | BinOp::Le | BinOp::Gt | BinOp::Ge =>
                Level::Comparison,
            BinOp::Add | BinOp::Sub | BinOp::BitOr => Level::Sum,
            BinOp::Mul | BinOp::BitAnd => Level::Product,
        }
    }
}

/// How tightly a binary operator binds, the loosest first.
#[derive(Clone, Copy, Debug, PartialEq, Eq)]
pub enum Level {
    /// `||`
    Disjunction,
    /// `&&`
    Conjunction,
    /// The six comparisons.
    Comparison,
    /// `+`, `-` and `.|`
    Sum,
    /// `*` and `.&`
    Product,
}

impl Level {
    /// The level that binds next more tightly; above a product stand the operators with one operand.
    pub fn tighter(self) -> Option<Level>
        ensures { result ≡ tighter self }
    {
        match self {
            Level::Disjunction => Some(Level::Conjunction),
            Level::Conjunction => Some(Level::Comparison),
            Level::Comparison => Some(Level::Sum),
            Level::Sum => Some(Level::Product),
            Level::Product => None,
        }
    }
}

/// An expression: its number among the expressions of the script in the order of the text, from 0, the place of
/// its own token, and its form.
#[cycle(tree)]
#[derive(Debug, Drop)]
pub struct Expr {
    pub id: NodeId,
    pub at: Place,
    pub form: Form,
}

/// The form of an expression. The flag says that it is dotted.
#[cycle(tree)]
#[derive(Debug, Drop)]
pub enum Form {
    Number(i64),
    Truth(bool),
    /// The bytes of a text without its quotes.
    Text(Name),
    Name(Name),
    /// `:` and the name of a column.
    Column(Name),
    /// A variable and the name of its column.
    Field(Name, Name),
    Unary(UnOp, bool, Boxed<Expr>),
    Binary(BinOp, bool, Boxed<Expr>, Boxed<Expr>),
    /// What is indexed, and the index.
    Index(Boxed<Expr>, Boxed<Expr>),
    Call(Name, bool, Items<Arg>),
}

/// An argument of a call.
#[cycle(tree)]
#[derive(Debug, Drop)]
pub enum Arg {
    Plain(Expr),
    /// The first and the last number.
    Range(Expr, Expr),
    /// The parameter and what is made of it.
    Lambda(Name, Expr),
    /// The name that is given, its place, and what stands for it.
    Named(Name, Place, Expr),
}

/// A statement, with the place of its first token.
#[derive(Debug, Drop)]
pub enum Stmt {
    Assign(Place, Name, Expr),
    Print(Place, Expr),
    Export(Place, Expr),
    /// The condition, what is run where it holds, and what is run where it does not.
    If(Place, Expr, Items<Stmt>, Items<Stmt>),
    While(Place, Expr, Items<Stmt>),
}

/// A script: its statements, and how many expressions they have, which are numbered from 0 in the order of the
/// text.
#[derive(Debug, Drop)]
pub struct Script {
    pub body: Items<Stmt>,
    pub nodes: u32,
    pub ghost few: { nodes ≤ 65536 },
    pub ghost numbered: { nodes_of (block_of body) ≡ range_with_len 0 nodes },
}
