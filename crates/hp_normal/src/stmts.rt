// Statements as steps: the expression first, then its value into that of a variable, a line or a file.

ghost use Rattle.std.specs.Prelude.{◌≡◌, ◌∷◌, [], OnOk, IfOk};
ghost use Rattle.std.specs.Option.{option_copied};
ghost use Rattle.hp_script.specs.Mirror.{tree_of, block_of};
ghost use Rattle.hp_program.specs.Programs.{joined};
ghost use Rattle.hp_flat.specs.Flat.{is_truths, holds_truths, flat_block, store_code, print_code, export_code};
ghost use Rattle.hp_normal.specs.Programs.{program_in, code_in};

use crate::exprs::{add_expr, copied};
use crate::homes::Homes;
use crate::steps::Steps;
use hp_air::what::What;
use hp_script::tree::{Expr, Stmt};
use hp_script::typed::Shape;
use hp_word::place::{NoMemory, Place};
use hp_word::word::CalcOp;

/// The value of an expression, which stands in its own place, to that of a variable.
#[tactic(auto, using(crate::proofs::ArrayForms::store_word, crate::proofs::ArrayForms::store_arrays, crate::proofs::ExprForms::copy_by), unfolding(hp_flat::specs::FlatCalls::word_copy))]
fn store_what(homes: &Homes<'_>, at: Place, name: &[u8], x: &Expr) -> Result<Option<What>, NoMemory>
    ensures { IfOk result (λ made. code_in at made ≡ store_code homes.now at name.now (tree_of x.now)) }
{
    if homes.count_of(x)? == 0 {
        let from = homes.word_of(x)?;
        return Ok(Some(What::Calc {
            to: homes.word_named(name)?,
            op: CalcOp::Max,
            left: from,
            right: from,
        }));
    }
    let outs = homes.slots_named(name)?;
    Ok(copied(outs, homes.ins_of(x)?))
}

/// Whether a type is of truth values.
fn is_truths(shape: Option<&Shape>) -> bool
    ensures { result ≡ is_truths (option_copied shape.entry) }
{
    match shape {
        Some(shape) => match shape {
            Shape::Bool | Shape::Bools => true,
            Shape::Int | Shape::Ints | Shape::Matrix | Shape::Frame(_) => false,
        },
        None => false,
    }
}

/// Whether the value of an expression is of truth values.
#[tactic(auto, using(crate::proofs::ValueForms::number_is))]
fn holds_truths(homes: &Homes<'_>, x: &Expr) -> bool
    ensures { result ≡ holds_truths homes.now (tree_of x.now) }
{
    is_truths(homes.shape_at(x.id))
}

/// `println` of a word or of an array
#[tactic(auto, using(crate::proofs::ArrayForms::print_forms))]
fn print_what(homes: &Homes<'_>, at: Place, x: &Expr) -> Result<Option<What>, NoMemory>
    ensures { IfOk result (λ made. code_in at made ≡ print_code homes.now at (tree_of x.now)) }
{
    let truth = holds_truths(homes, x);
    match homes.first_of(x)? {
        Some(array) => Ok(Some(What::PrintList { array, truth })),
        None => Ok(Some(What::PrintWord {
            word: homes.word_of(x)?,
            truth,
        })),
    }
}

/// `write_csv`
#[tactic(auto, unfolding(hp_flat::specs::Flat::export_code))]
fn export_what(homes: &Homes<'_>, at: Place, x: &Expr) -> Result<Option<What>, NoMemory>
    ensures { IfOk result (λ made. code_in at made ≡ export_code homes.now at (tree_of x.now)) }
{
    Ok(Some(What::Export {
        arrays: homes.ins_of(x)?,
        names: homes.names_of(x)?,
    }))
}

/// Adds the steps of statements.
#[cycle(statements)]
#[tactic(auto, using(crate::proofs::BlockForms::statement_forms))]
pub fn add_block(body: &[Stmt], homes: &Homes<'_>, steps: &mut Steps) -> Result<(), NoMemory>
    ensures { OnOk result (program_in steps.new ≡ joined (program_in steps.old) (flat_block homes.now (block_of body.now))) }
{
    for stmt in body {
        add_stmt(stmt, homes, steps)?;
    }
    Ok(())
}

/// The steps of statements by themselves.
#[cycle(statements)]
#[tactic(auto, using(crate::proofs::ExprForms::stop_first))]
fn block_steps(body: &[Stmt], homes: &Homes<'_>) -> Result<Steps, NoMemory>
    ensures { IfOk result (λ steps. program_in steps ≡ flat_block homes.now (block_of body.now)) }
{
    let mut steps = Steps::new(homes.alloc());
    add_block(body, homes, &mut steps)?;
    Ok(steps)
}

/// Adds the steps of a statement.
#[cycle(statements)]
#[tactic(auto, using(crate::proofs::BlockForms::statement_forms))]
fn add_stmt(stmt: &Stmt, homes: &Homes<'_>, steps: &mut Steps) -> Result<(), NoMemory>
    ensures { OnOk result (program_in steps.new ≡ joined (program_in steps.old) (flat_block homes.now (block_of (stmt.now ∷ [])))) }
{
    match stmt {
        Stmt::Assign(at, name, x) => {
            add_expr(x, homes, None, steps)?;
            let made = store_what(homes, *at, name.bytes.as_slice(), x)?;
            steps.add(*at, made)
        }
        Stmt::Print(at, x) => {
            add_expr(x, homes, None, steps)?;
            let made = print_what(homes, *at, x)?;
            steps.add(*at, made)
        }
        Stmt::Export(at, x) => {
            add_expr(x, homes, None, steps)?;
            let made = export_what(homes, *at, x)?;
            steps.add(*at, made)
        }
        Stmt::If(_, test, first, second) => {
            add_expr(test, homes, None, steps)?;
            let first = block_steps(first.as_slice(), homes)?;
            let second = block_steps(second.as_slice(), homes)?;
            steps.branch(homes.word_of(test)?, first, second)
        }
        Stmt::While(_, test, turn) => {
            let mut tested = Steps::new(homes.alloc());
            add_expr(test, homes, None, &mut tested)?;
            let turn = block_steps(turn.as_slice(), homes)?;
            steps.turns(tested, homes.word_of(test)?, turn)
        }
    }
}
