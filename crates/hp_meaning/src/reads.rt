// The calls of `read_csv` in a script, by the numbers of their nodes in the order of the text.

ghost use Rattle.std.specs.Prelude.{◌≡◌, ◌++◌, ◌∷◌, [], if◌then◌else◌, OnOk};
ghost use Rattle.hp_script.specs.Mirror.{tree_of, args_of, block_of};
ghost use Rattle.hp_meaning.specs.ReadCalls.{is_read, reads_in, reads_among, reads_of};

use hp_script::tree::{Arg, Expr, Form, Stmt};
use hp_word::place::{NoMemory, NodeId};

/// Whether a call reads a table.
fn is_read(function: &[u8], dotted: bool) -> bool
    ensures { result ≡ is_read function.now dotted }
{
    !dotted && function == b"read_csv".as_slice()
}

/// Adds the number of a call, where it reads a table.
fn add_call(reads: &mut Vec<u32>, id: NodeId, function: &[u8], dotted: bool) -> Result<(), NoMemory>
    ensures { OnOk result (reads.new.items ≡ reads.old.items ++ (if is_read function.now dotted then id.0 ∷ [] else [])) }
{
    if is_read(function, dotted) {
        reads.push(id.0)?;
    }
    Ok(())
}

/// Adds the calls in an expression.
#[cycle(reads)]
#[tactic(auto, using(crate::proofs::ReadLemmas::expression_reads))]
fn add_reads(reads: &mut Vec<u32>, x: &Expr) -> Result<(), NoMemory>
    ensures { OnOk result (reads.new.items ≡ reads.old.items ++ reads_in (tree_of x.now)) }
{
    match &x.form {
        Form::Unary(_, _, operand) => add_reads(reads, operand.get()),
        Form::Binary(_, _, left, right) => {
            add_reads(reads, left.get())?;
            add_reads(reads, right.get())
        }
        Form::Index(array, index) => {
            add_reads(reads, array.get())?;
            add_reads(reads, index.get())
        }
        Form::Call(function, dotted, args) => {
            add_call(reads, x.id, function.bytes.as_slice(), *dotted)?;
            add_reads_among(reads, args.as_slice())
        }
        Form::Number(_)
        | Form::Truth(_)
        | Form::Text(_)
        | Form::Name(_)
        | Form::Column(_)
        | Form::Field(..) => Ok(()),
    }
}

/// Adds the calls in arguments.
#[cycle(reads)]
#[tactic(auto, using(crate::proofs::ReadLemmas::expression_reads))]
fn add_reads_among(reads: &mut Vec<u32>, args: &[Arg]) -> Result<(), NoMemory>
    ensures { OnOk result (reads.new.items ≡ reads.old.items ++ reads_among (args_of args.now)) }
{
    for arg in args {
        add_reads_at(reads, arg)?;
    }
    Ok(())
}

/// Adds the calls in an argument.
#[cycle(reads)]
#[tactic(auto, using(crate::proofs::ReadLemmas::expression_reads))]
fn add_reads_at(reads: &mut Vec<u32>, arg: &Arg) -> Result<(), NoMemory>
    ensures { OnOk result (reads.new.items ≡ reads.old.items ++ reads_among (args_of (arg.now ∷ []))) }
{
    match arg {
        Arg::Plain(x) | Arg::Named(_, _, x) => add_reads(reads, x),
        Arg::Range(first, last) => {
            add_reads(reads, first)?;
            add_reads(reads, last)
        }
        Arg::Lambda(..) => Ok(()),
    }
}

/// Adds the calls in statements.
#[cycle(statement_reads)]
#[tactic(auto, using(crate::proofs::ReadLemmas::statement_reads))]
pub fn add_reads_of(reads: &mut Vec<u32>, body: &[Stmt]) -> Result<(), NoMemory>
    ensures { OnOk result (reads.new.items ≡ reads.old.items ++ reads_of (block_of body.now)) }
{
    for stmt in body {
        add_reads_in(reads, stmt)?;
    }
    Ok(())
}

/// Adds the calls in a statement.
#[cycle(statement_reads)]
#[tactic(auto, using(crate::proofs::ReadLemmas::statement_reads))]
fn add_reads_in(reads: &mut Vec<u32>, stmt: &Stmt) -> Result<(), NoMemory>
    ensures { OnOk result (reads.new.items ≡ reads.old.items ++ reads_of (block_of (stmt.now ∷ []))) }
{
    match stmt {
        Stmt::Assign(_, _, x) | Stmt::Print(_, x) | Stmt::Export(_, x) => add_reads(reads, x),
        Stmt::If(_, test, first, second) => {
            add_reads(reads, test)?;
            add_reads_of(reads, first.as_slice())?;
            add_reads_of(reads, second.as_slice())
        }
        Stmt::While(_, test, turn) => {
            add_reads(reads, test)?;
            add_reads_of(reads, turn.as_slice())
        }
    }
}
