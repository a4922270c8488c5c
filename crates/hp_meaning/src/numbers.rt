// Numbers of variables: which variable an expression reads, and which one it is assigned to.
//
// By such a number a variable is found without a search (`Variables`). It says only where a variable is looked for
// first: what is found there is known by its name, so no contract speaks of numbers.

use hp_script::tree::{Arg, Expr, Form, Script, Stmt};
use hp_word::name::Name;
use hp_word::place::{NoMemory, NodeId};
use indexmap::IndexSet;
use std::alloc::Global;

/// The number of no variable.
const NONE: usize = usize::MAX;

/// The numbers of the variables of an expression: of the one that it reads or whose column it reads, and of the one
/// that it is assigned to.
#[derive(Clone, Copy)]
pub struct Numbers {
    pub read: usize,
    pub assigned: usize,
}

/// The numbers of the variables of each expression, by the expression's number, and the names by their numbers.
#[derive(Drop)]
pub struct Numbering {
    names: IndexSet<Vec<u8>>,
    nodes: Vec<Numbers>,
}

impl Numbering {
    /// The numbers of a script's variables.
    pub fn of(alloc: Global, script: &Script) -> Result<Numbering, NoMemory> {
        let mut numbering = Numbering {
            names: IndexSet::new(alloc),
            nodes: unnumbered(alloc, script.nodes)?,
        };
        number_block(alloc, &mut numbering, script.body.as_slice())?;
        Ok(numbering)
    }

    /// The numbers by the number of the expression.
    pub fn as_slice(&self) -> &[Numbers] {
        self.nodes.as_slice()
    }

    /// The number of a name.
    fn number(&mut self, alloc: Global, name: &Name) -> Result<usize, NoMemory> {
        let name = name.bytes.as_slice();
        if let Some(number) = self.names.get_index_of(name) {
            return Ok(number);
        }
        let (number, _is_new) = self.names.insert_full(Vec::from_slice(alloc, name)?)?;
        Ok(number)
    }

    /// Notes the variable that an expression reads.
    fn note_read(&mut self, alloc: Global, id: NodeId, name: &Name) -> Result<(), NoMemory> {
        let number = self.number(alloc, name)?;
        if let Some(numbers) = self.nodes.get_mut(id.0 as usize) {
            numbers.read = number;
        }
        Ok(())
    }

    /// Notes the variable that an expression is assigned to.
    fn note_assigned(&mut self, alloc: Global, id: NodeId, name: &Name) -> Result<(), NoMemory> {
        let number = self.number(alloc, name)?;
        if let Some(numbers) = self.nodes.get_mut(id.0 as usize) {
            numbers.assigned = number;
        }
        Ok(())
    }
}

/// The number of the variable that an expression reads.
pub fn number_read(numbers: &[Numbers], id: NodeId) -> usize {
    match numbers.get(id.0 as usize) {
        Some(found) => found.read,
        None => NONE,
    }
}

/// The number of the variable that an expression is assigned to.
pub fn number_assigned(numbers: &[Numbers], id: NodeId) -> usize {
    match numbers.get(id.0 as usize) {
        Some(found) => found.assigned,
        None => NONE,
    }
}

/// Numbers of no variable, for so many expressions.
fn unnumbered(alloc: Global, nodes: u32) -> Result<Vec<Numbers>, NoMemory> {
    let mut list = Vec::new(alloc);
    for _ in 0..nodes {
        list.push(Numbers {
            read: NONE,
            assigned: NONE,
        })?;
    }
    Ok(list)
}

/// Numbers the variables that an expression reads, but for those in lambdas.
#[cycle(numbered)]
fn number_expr(alloc: Global, numbering: &mut Numbering, x: &Expr) -> Result<(), NoMemory> {
    match &x.form {
        Form::Name(name) => numbering.note_read(alloc, x.id, name),
        Form::Field(name, _) => numbering.note_read(alloc, x.id, name),
        Form::Unary(_, _, operand) => number_expr(alloc, numbering, operand.get()),
        Form::Binary(_, _, left, right) => {
            number_expr(alloc, numbering, left.get())?;
            number_expr(alloc, numbering, right.get())
        }
        Form::Index(array, index) => {
            number_expr(alloc, numbering, array.get())?;
            number_expr(alloc, numbering, index.get())
        }
        Form::Call(_, _, args) => number_args(alloc, numbering, args.as_slice()),
        Form::Number(_) | Form::Truth(_) | Form::Text(_) | Form::Column(_) => Ok(()),
    }
}

/// Numbers the variables that arguments read.
#[cycle(numbered)]
fn number_args(alloc: Global, numbering: &mut Numbering, args: &[Arg]) -> Result<(), NoMemory> {
    for arg in args {
        number_arg(alloc, numbering, arg)?;
    }
    Ok(())
}

/// Numbers the variables that an argument reads.
#[cycle(numbered)]
fn number_arg(alloc: Global, numbering: &mut Numbering, arg: &Arg) -> Result<(), NoMemory> {
    match arg {
        Arg::Plain(x) | Arg::Named(_, _, x) => number_expr(alloc, numbering, x),
        Arg::Range(first, last) => {
            number_expr(alloc, numbering, first)?;
            number_expr(alloc, numbering, last)
        }
        Arg::Lambda(..) => Ok(()),
    }
}

/// Numbers the variables of statements.
#[cycle(numbered_statements)]
fn number_block(alloc: Global, numbering: &mut Numbering, body: &[Stmt]) -> Result<(), NoMemory> {
    for stmt in body {
        number_stmt(alloc, numbering, stmt)?;
    }
    Ok(())
}

/// Numbers the variables of a statement.
#[cycle(numbered_statements)]
fn number_stmt(alloc: Global, numbering: &mut Numbering, stmt: &Stmt) -> Result<(), NoMemory> {
    match stmt {
        Stmt::Assign(_, name, x) => {
            numbering.note_assigned(alloc, x.id, name)?;
            number_expr(alloc, numbering, x)
        }
        Stmt::Print(_, x) | Stmt::Export(_, x) => number_expr(alloc, numbering, x),
        Stmt::If(_, test, first, second) => {
            number_expr(alloc, numbering, test)?;
            number_block(alloc, numbering, first.as_slice())?;
            number_block(alloc, numbering, second.as_slice())
        }
        Stmt::While(_, test, turn) => {
            number_expr(alloc, numbering, test)?;
            number_block(alloc, numbering, turn.as_slice())
        }
    }
}
