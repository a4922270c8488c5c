// The nodes of a tree, each made of its number, its place and its parts.

ghost use Rattle.std.specs.Prelude.{◌≡◌, IfOk};
ghost use Rattle.hp_script.specs.Trees.{node, number_node, truth_node, text_node, name_node, column_node, field_node, unary_node, binary_node, index_node, call_node};

use hp_script::tree::{Arg, BinOp, Expr, Form, UnOp};
use hp_word::name::Name;
use hp_word::place::{NoMemory, NodeId, Place};
use sqlite_items::{Boxed, Items};
use std::alloc::Global;

/// The number and the place of a node.
#[derive(Clone, Copy)]
pub struct Head {
    pub id: NodeId,
    pub at: Place,
}

impl Head {
    fn with(self, form: Form) -> Expr
        ensures { result ≡ node self.id.0 self.at form }
    {
        Expr {
            id: self.id,
            at: self.at,
            form,
        }
    }

    pub fn number(self, value: i64) -> Expr
        ensures { result ≡ number_node self.id.0 self.at value }
    {
        self.with(Form::Number(value))
    }

    pub fn truth(self, truth: bool) -> Expr
        ensures { result ≡ truth_node self.id.0 self.at truth }
    {
        self.with(Form::Truth(truth))
    }

    pub fn text(self, alloc: Global, bytes: &[u8]) -> Result<Expr, NoMemory>
        ensures { IfOk result (λ x. x ≡ text_node self.id.0 self.at bytes.now) }
    {
        Ok(self.with(Form::Text(Name::of(alloc, bytes)?)))
    }

    pub fn name(self, alloc: Global, bytes: &[u8]) -> Result<Expr, NoMemory>
        ensures { IfOk result (λ x. x ≡ name_node self.id.0 self.at bytes.now) }
    {
        Ok(self.with(Form::Name(Name::of(alloc, bytes)?)))
    }

    pub fn column(self, alloc: Global, bytes: &[u8]) -> Result<Expr, NoMemory>
        ensures { IfOk result (λ x. x ≡ column_node self.id.0 self.at bytes.now) }
    {
        Ok(self.with(Form::Column(Name::of(alloc, bytes)?)))
    }

    /// A variable and the name of its column.
    pub fn field(self, alloc: Global, variable: &[u8], column: &[u8]) -> Result<Expr, NoMemory>
        ensures { IfOk result (λ x. x ≡ field_node self.id.0 self.at variable.now column.now) }
    {
        let variable = Name::of(alloc, variable)?;
        let column = Name::of(alloc, column)?;
        Ok(self.with(Form::Field(variable, column)))
    }

    pub fn unary(
        self,
        alloc: Global,
        op: UnOp,
        dotted: bool,
        operand: Expr,
    ) -> Result<Expr, NoMemory>
        ensures { IfOk result (λ x. x ≡ unary_node self.id.0 self.at op dotted operand) }
    {
        let operand = Boxed::new(alloc, operand)?;
        Ok(self.with(Form::Unary(op, dotted, operand)))
    }

    pub fn binary(
        self,
        alloc: Global,
        op: BinOp,
        dotted: bool,
        left: Expr,
        right: Expr,
    ) -> Result<Expr, NoMemory>
        ensures { IfOk result (λ x. x ≡ binary_node self.id.0 self.at op dotted left right) }
    {
        let left = Boxed::new(alloc, left)?;
        let right = Boxed::new(alloc, right)?;
        Ok(self.with(Form::Binary(op, dotted, left, right)))
    }

    /// What is indexed, and the index.
    pub fn index(self, alloc: Global, indexed: Expr, index: Expr) -> Result<Expr, NoMemory>
        ensures { IfOk result (λ x. x ≡ index_node self.id.0 self.at indexed index) }
    {
        let indexed = Boxed::new(alloc, indexed)?;
        let index = Boxed::new(alloc, index)?;
        Ok(self.with(Form::Index(indexed, index)))
    }

    pub fn call(
        self,
        alloc: Global,
        function: &[u8],
        dotted: bool,
        args: Items<Arg>,
    ) -> Result<Expr, NoMemory>
        ensures { IfOk result (λ x. x ≡ call_node self.id.0 self.at function.now dotted args) }
    {
        let function = Name::of(alloc, function)?;
        Ok(self.with(Form::Call(function, dotted, args)))
    }
}
