// The canonical text of a script.

ghost use Rattle.std.specs.Prelude.{◌≡◌, if◌then◌else◌, ◌≤◌, [], ◌∷◌, ◌++◌, codes, IfOk, OnOk};
ghost use Rattle.std.specs.Fmt.{signed_decimal};
ghost use Rattle.hp_script.specs.Alike.{SpellsAgain};
ghost use Rattle.hp_script.specs.Grammar.{level_of};
ghost use Rattle.hp_script.specs.Mirror.{tree_of, args_of, block_of};
ghost use Rattle.hp_script.specs.Printing.{symbol, unary_symbol, dot, rank, left_rank, binds, bracketed, text_in, text_among, text_of, text_of_script, deeper, else_part};

use crate::tree::{Arg, BinOp, Expr, Form, Level, Script, Stmt, UnOp};
use hp_word::place::NoMemory;
use std::alloc::Global;

/// How tightly an operator with one operand binds.
const UNARY: u8 = 5;

/// How tightly an expression binds that is no operator's.
const PRIMARY: u8 = 6;

/// The canonical text of a script.
pub fn text(alloc: Global, script: &Script) -> Result<Vec<u8>, NoMemory>
    ensures text { IfOk result (λ bytes. bytes.items ≡ text_of_script (block_of script.now.body)) }
    // A script that was read is spelled by its text, but for places and the numbers of its nodes.
    ensures again { IfOk result (λ bytes. SpellsAgain bytes.items script.now.body script.now.nodes) }
{
    let mut out = Vec::new(alloc);
    add_block(&mut out, b"".as_slice(), script.body.as_slice())?;
    Ok(out)
}

/// Adds bytes.
fn add(out: &mut Vec<u8>, bytes: &[u8]) -> Result<(), NoMemory>
    ensures { OnOk result (out.new.items ≡ out.old.items ++ bytes.now) }
{
    out.extend_from_slice(bytes)?;
    Ok(())
}

/// Adds a number in decimal.
fn add_number(out: &mut Vec<u8>, value: i64) -> Result<(), NoMemory>
    ensures { OnOk result (out.new.items ≡ out.old.items ++ signed_decimal value) }
{
    let decimal = format!(in *out.allocator(); "{value}")?;
    out.extend_from_slice(decimal.as_bytes())?;
    Ok(())
}

/// The sign of an operator with two operands, but for its dot.
fn symbol(op: BinOp) -> &'static [u8]
    ensures { result.now ≡ symbol op }
{
    match op {
        BinOp::Or => b"||".as_slice(),
        BinOp::And => b"&&".as_slice(),
        BinOp::Eq => b"==".as_slice(),
        BinOp::Ne => b"!=".as_slice(),
        BinOp::Lt => b"<".as_slice(),
        BinOp::Le => b"<=".as_slice(),
        BinOp::Gt => b">".as_slice(),
        BinOp::Ge => b">=".as_slice(),
        BinOp::Add => b"+".as_slice(),
        BinOp::Sub => b"-".as_slice(),
        BinOp::BitOr => b"|".as_slice(),
        BinOp::Mul => b"*".as_slice(),
        BinOp::BitAnd => b"&".as_slice(),
    }
}

/// The sign of an operator with one operand, but for its dot.
fn unary_symbol(op: UnOp) -> &'static [u8]
    ensures { result.now ≡ unary_symbol op }
{
    match op {
        UnOp::Neg => b"-".as_slice(),
        UnOp::Not => b"!".as_slice(),
    }
}

/// The dot of what is dotted.
fn dot(dotted: bool) -> &'static [u8]
    ensures { result.now ≡ dot dotted }
{
    if dotted {
        b".".as_slice()
    } else {
        b"".as_slice()
    }
}

/// The word of a truth value.
fn truth(holds: bool) -> &'static [u8]
    ensures { result.now ≡ (if holds then codes "true" else codes "false") }
{
    if holds {
        b"true".as_slice()
    } else {
        b"false".as_slice()
    }
}

/// How tightly the operators of a level bind.
fn rank(level: Level) -> u8
    ensures value { result ≡ rank level }
    ensures within { result ≤ 4 }
{
    match level {
        Level::Disjunction => 0,
        Level::Conjunction => 1,
        Level::Comparison => 2,
        Level::Sum => 3,
        Level::Product => 4,
    }
}

/// How tightly the left operand of an operator of a level must bind.
fn left_rank(level: Level) -> u8
    ensures { result ≡ left_rank level }
{
    match level {
        Level::Comparison => 3,
        _ => rank(level),
    }
}

/// How tightly an expression binds.
#[tactic(auto, using(crate::proofs::PrintLemmas::binding))]
fn binds(x: &Expr) -> u8
    ensures { result ≡ binds (tree_of x.now) }
{
    match &x.form {
        Form::Binary(op, ..) => rank(op.level()),
        Form::Unary(..) => UNARY,
        Form::Number(_)
        | Form::Truth(_)
        | Form::Text(_)
        | Form::Name(_)
        | Form::Column(_)
        | Form::Field(..)
        | Form::Index(..)
        | Form::Call(..) => PRIMARY,
    }
}

/// Adds a text in quotes.
fn add_quoted(out: &mut Vec<u8>, bytes: &[u8]) -> Result<(), NoMemory>
    ensures { OnOk result (out.new.items ≡ out.old.items ++ (codes "\"" ++ bytes.now ++ codes "\"")) }
{
    add(out, b"\"".as_slice())?;
    add(out, bytes)?;
    add(out, b"\"".as_slice())
}

/// Adds an operator with two operands, with a blank on either side.
fn add_operator(out: &mut Vec<u8>, op: BinOp, dotted: bool) -> Result<(), NoMemory>
    ensures { OnOk result (out.new.items ≡ out.old.items ++ (codes " " ++ dot dotted ++ symbol op ++ codes " ")) }
{
    add(out, b" ".as_slice())?;
    add(out, dot(dotted))?;
    add(out, symbol(op))?;
    add(out, b" ".as_slice())
}

/// Adds an operand that must bind so tightly.
#[cycle(expressions)]
#[tactic(auto, using(crate::proofs::PrintLemmas::expression_texts))]
fn add_operand(out: &mut Vec<u8>, least: u8, x: &Expr) -> Result<(), NoMemory>
    ensures { OnOk result (out.new.items ≡ out.old.items ++ bracketed least (tree_of x.now) (text_in (tree_of x.now))) }
{
    if least <= binds(x) {
        return add_expr(out, x);
    }
    add(out, b"(".as_slice())?;
    add_expr(out, x)?;
    add(out, b")".as_slice())
}

/// Adds an expression.
#[cycle(expressions)]
#[tactic(auto, using(crate::proofs::PrintLemmas::expression_texts))]
fn add_expr(out: &mut Vec<u8>, x: &Expr) -> Result<(), NoMemory>
    ensures { OnOk result (out.new.items ≡ out.old.items ++ text_in (tree_of x.now)) }
{
    match &x.form {
        Form::Number(value) => add_number(out, *value),
        Form::Truth(holds) => add(out, truth(*holds)),
        Form::Text(bytes) => add_quoted(out, bytes.bytes.as_slice()),
        Form::Name(name) => add(out, name.bytes.as_slice()),
        Form::Column(name) => {
            add(out, b":".as_slice())?;
            add(out, name.bytes.as_slice())
        }
        Form::Field(name, column) => {
            add(out, name.bytes.as_slice())?;
            add(out, b".".as_slice())?;
            add(out, column.bytes.as_slice())
        }
        Form::Unary(op, dotted, operand) => {
            add(out, dot(*dotted))?;
            add(out, unary_symbol(*op))?;
            add_operand(out, UNARY, operand.get())
        }
        Form::Binary(op, dotted, left, right) => {
            let level = op.level();
            add_operand(out, left_rank(level), left.get())?;
            add_operator(out, *op, *dotted)?;
            add_operand(out, rank(level) + 1, right.get())
        }
        Form::Index(indexed, index) => {
            add_operand(out, PRIMARY, indexed.get())?;
            add(out, b"[".as_slice())?;
            add_expr(out, index.get())?;
            add(out, b"]".as_slice())
        }
        Form::Call(function, dotted, args) => {
            add(out, function.bytes.as_slice())?;
            add(out, dot(*dotted))?;
            add(out, b"(".as_slice())?;
            add_args(out, args.as_slice())?;
            add(out, b")".as_slice())
        }
    }
}

/// Adds arguments.
#[cycle(expressions)]
#[tactic(auto, using(crate::proofs::PrintLemmas::expression_texts))]
fn add_args(out: &mut Vec<u8>, args: &[Arg]) -> Result<(), NoMemory>
    ensures { OnOk result (out.new.items ≡ out.old.items ++ text_among (args_of args.now)) }
{
    for (i, arg) in args.iter().enumerate() {
        if i > 0 {
            add(out, b", ".as_slice())?;
        }
        add_arg(out, arg)?;
    }
    Ok(())
}

/// Adds an argument.
#[cycle(expressions)]
#[tactic(auto, using(crate::proofs::PrintLemmas::expression_texts))]
fn add_arg(out: &mut Vec<u8>, arg: &Arg) -> Result<(), NoMemory>
    ensures { OnOk result (out.new.items ≡ out.old.items ++ text_among (args_of (arg.now ∷ []))) }
{
    match arg {
        Arg::Plain(x) => add_expr(out, x),
        Arg::Range(first, last) => {
            add_expr(out, first)?;
            add(out, b":".as_slice())?;
            add_expr(out, last)
        }
        Arg::Lambda(parameter, x) => {
            add(out, parameter.bytes.as_slice())?;
            add(out, b" -> ".as_slice())?;
            add_expr(out, x)
        }
        Arg::Named(name, _, x) => {
            add(out, name.bytes.as_slice())?;
            add(out, b" = ".as_slice())?;
            add_expr(out, x)
        }
    }
}

/// The indentation of a block in one with this indentation.
fn deeper(alloc: Global, indent: &[u8]) -> Result<Vec<u8>, NoMemory>
    ensures { IfOk result (λ inner. inner.items ≡ deeper indent.now) }
{
    let mut inner = Vec::from_slice(alloc, indent)?;
    inner.extend_from_slice(b"    ".as_slice())?;
    Ok(inner)
}

/// Adds the statements of a block.
#[cycle(statements)]
fn add_block(out: &mut Vec<u8>, indent: &[u8], body: &[Stmt]) -> Result<(), NoMemory>
    ensures { OnOk result (out.new.items ≡ out.old.items ++ text_of indent.now (block_of body.now)) }
{
    for stmt in body {
        add_stmt(out, indent, stmt)?;
    }
    Ok(())
}

/// Adds a statement.
#[cycle(statements)]
fn add_stmt(out: &mut Vec<u8>, indent: &[u8], stmt: &Stmt) -> Result<(), NoMemory>
    ensures { OnOk result (out.new.items ≡ out.old.items ++ text_of indent.now (block_of (stmt.now ∷ []))) }
{
    add(out, indent)?;
    match stmt {
        Stmt::Assign(_, name, x) => {
            add(out, name.bytes.as_slice())?;
            add(out, b" = ".as_slice())?;
            add_expr(out, x)?;
            add(out, b"\n".as_slice())
        }
        Stmt::Print(_, x) => {
            add(out, b"println(".as_slice())?;
            add_expr(out, x)?;
            add(out, b")\n".as_slice())
        }
        Stmt::Export(_, x) => {
            add(out, b"write_csv(".as_slice())?;
            add_expr(out, x)?;
            add(out, b")\n".as_slice())
        }
        Stmt::If(_, test, body, other) => {
            add(out, b"if ".as_slice())?;
            add_expr(out, test)?;
            add_nested(out, indent, body.as_slice())?;
            add_else(out, indent, other.as_slice())?;
            add_end(out, indent)
        }
        Stmt::While(_, test, body) => {
            add(out, b"while ".as_slice())?;
            add_expr(out, test)?;
            add_nested(out, indent, body.as_slice())?;
            add_end(out, indent)
        }
    }
}

/// Adds the end of a line, and a block that is deeper.
#[cycle(statements)]
fn add_nested(out: &mut Vec<u8>, indent: &[u8], body: &[Stmt]) -> Result<(), NoMemory>
    ensures { OnOk result (out.new.items ≡ out.old.items ++ (codes "\n" ++ text_of (deeper indent.now) (block_of body.now))) }
{
    let inner = deeper(*out.allocator(), indent)?;
    add(out, b"\n".as_slice())?;
    add_block(out, inner.as_slice(), body)
}

/// Adds the second block of an `if`, where it has statements.
#[cycle(statements)]
fn add_else(out: &mut Vec<u8>, indent: &[u8], other: &[Stmt]) -> Result<(), NoMemory>
    ensures { OnOk result (out.new.items ≡ out.old.items ++ else_part indent.now (block_of other.now) (text_of (deeper indent.now) (block_of other.now))) }
{
    if other.is_empty() {
        return Ok(());
    }
    add(out, indent)?;
    add(out, b"else".as_slice())?;
    add_nested(out, indent, other)
}

/// Adds the line that ends a statement of several lines.
fn add_end(out: &mut Vec<u8>, indent: &[u8]) -> Result<(), NoMemory>
    ensures { OnOk result (out.new.items ≡ out.old.items ++ (indent.now ++ codes "end\n")) }
{
    add(out, indent)?;
    add(out, b"end\n".as_slice())
}
