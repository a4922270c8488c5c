// Expressions as steps: each first its parts, then itself, into its own slots or word.

ghost use Rattle.std.specs.Prelude.{◌≡◌, ◌∷◌, [], OnOk};
ghost use Rattle.hp_script.specs.Functions.{function_named};
ghost use Rattle.hp_script.specs.Mirror.{Args, tree_of, args_of, arg_of};
ghost use Rattle.hp_program.specs.Programs.{joined};
ghost use Rattle.hp_air.specs.Unknowns.{Known, at_node, frame_around, filtered_frame};
ghost use Rattle.hp_air.specs.declared.what.What.TheVariants.{Const};
ghost use Rattle.hp_flat.specs.Homes.{word_at, slots_of};
ghost use Rattle.hp_flat.specs.Flat.{flat, flat_among};
ghost use Rattle.hp_flat.specs.FlatCalls.{code_of, unary_code, index_code, binary_code, named_call};
ghost use Rattle.hp_normal.specs.Programs.{program_in, code_in, head_in, copy_of, eager_code, frame_at_node};

use crate::calls::named_what;
use crate::homes::{Homes, Site};
use crate::operators::{add_lazy, eager_what, index_what, is_lazy, unary_what};
use crate::steps::Steps;
use hp_air::what::What;
use hp_script::function::function_of;
use hp_script::tree::{Arg, BinOp, Expr, Form, UnOp};
use hp_word::place::{NoMemory, NodeId};
use hp_word::sequence::Sequence;
use hp_word::word::word_of;

/// A copy, where what is copied is of arrays.
pub fn copied(outs: Sequence<u32>, ins: Sequence<u32>) -> Option<What>
    ensures { result ≡ copy_of outs ins }
{
    if outs.is_empty() {
        None
    } else {
        Some(What::Copy { outs, ins })
    }
}

/// The frame whose columns the arguments of a call behind the first see.
fn frame_around(function: &[u8], args: &[Arg], around: Option<NodeId>) -> Option<NodeId>
    ensures { (g : Known) → frame_at_node g result ≡ frame_around g function.now (args_of args.now) (frame_at_node g around) }
{
    if function != b"filter".as_slice() {
        return around;
    }
    filtered_frame(args)
}

/// The frame that is the first argument of a filter.
#[tactic(auto, unfolding(hp_script::specs::Mirror::args_of))]
fn filtered_frame(args: &[Arg]) -> Option<NodeId>
    ensures { (g : Known) → frame_at_node g result ≡ filtered_frame g (args_of args.now) }
{
    match args {
        [first, ..] => frame_in(first),
        [] => None,
    }
}

/// The frame that an argument is.
#[tactic(auto, using(crate::proofs::ExprForms::frame_forms))]
fn frame_in(arg: &Arg) -> Option<NodeId>
    ensures { (g : Known) (rest : Args) → frame_at_node g result ≡ filtered_frame g (arg_of arg.now rest) }
{
    match arg {
        Arg::Plain(x) => Some(x.id),
        Arg::Range(..) | Arg::Lambda(..) | Arg::Named(..) => None,
    }
}

/// Adds a number or a truth value.
fn add_word(steps: &mut Steps, homes: &Homes<'_>, site: Site, value: i64) -> Result<(), NoMemory>
    ensures { OnOk result (program_in steps.new ≡ joined (program_in steps.old) (code_of site.at (Const (word_at homes.now site.id.0) value))) }
{
    let to = homes.word_at(site.id)?;
    steps.push(site.at, What::Const { to, value })
}

/// Adds a copy into the slots of an expression.
fn add_copy(
    steps: &mut Steps,
    homes: &Homes<'_>,
    site: Site,
    ins: Sequence<u32>,
) -> Result<(), NoMemory>
    ensures { OnOk result (program_in steps.new ≡ joined (program_in steps.old) (code_in site.at (copy_of (slots_of homes.now (at_node homes.now.known site.id.0)) ins))) }
{
    let outs = homes.slots_at(site.id)?;
    steps.add(site.at, copied(outs, ins))
}

/// Adds an operator with one operand, behind it.
fn add_unary(
    steps: &mut Steps,
    homes: &Homes<'_>,
    site: Site,
    op: UnOp,
    dotted: bool,
    x: &Expr,
) -> Result<(), NoMemory>
    ensures { OnOk result (program_in steps.new ≡ joined (program_in steps.old) (unary_code homes.now (head_in site) op dotted (tree_of x.now))) }
{
    let made = unary_what(homes, site, op, dotted, x)?;
    steps.add(site.at, made)
}

/// Adds an operator of which both sides were made.
fn add_eager(
    steps: &mut Steps,
    homes: &Homes<'_>,
    site: Site,
    op: BinOp,
    dotted: bool,
    x: &Expr,
    y: &Expr,
) -> Result<(), NoMemory>
    ensures { OnOk result (program_in steps.new ≡ joined (program_in steps.old) (eager_code homes.now (head_in site) op dotted (tree_of x.now) (tree_of y.now))) }
{
    let made = eager_what(homes, site, op, dotted, x, y)?;
    steps.add(site.at, made)
}

/// Adds an index, behind the array and the index.
fn add_index(
    steps: &mut Steps,
    homes: &Homes<'_>,
    site: Site,
    x: &Expr,
    i: &Expr,
) -> Result<(), NoMemory>
    ensures { OnOk result (program_in steps.new ≡ joined (program_in steps.old) (index_code homes.now (head_in site) (tree_of x.now) (tree_of i.now))) }
{
    let made = index_what(homes, site, x, i)?;
    steps.add(site.at, made)
}

/// Adds a call, behind its arguments.
fn add_call(
    steps: &mut Steps,
    homes: &Homes<'_>,
    site: Site,
    function: &[u8],
    dotted: bool,
    args: &[Arg],
) -> Result<(), NoMemory>
    ensures { OnOk result (program_in steps.new ≡ joined (program_in steps.old) (named_call homes.now (head_in site) dotted (function_named dotted function.now) (args_of args.now))) }
{
    let made = named_what(homes, site, dotted, function_of(function, dotted), args)?;
    steps.add(site.at, made)
}

/// Adds the steps of an expression; columns are those of the frame around.
#[cycle(exprs)]
#[tactic(auto, using(crate::proofs::ExprForms::expression_forms))]
pub fn add_expr(
    x: &Expr,
    homes: &Homes<'_>,
    around: Option<NodeId>,
    steps: &mut Steps,
) -> Result<(), NoMemory>
    ensures { OnOk result (program_in steps.new ≡ joined (program_in steps.old) (flat homes.now (frame_at_node homes.now.known around) (tree_of x.now))) }
{
    let site = Site { id: x.id, at: x.at };
    match &x.form {
        Form::Number(value) => add_word(steps, homes, site, *value),
        Form::Truth(holds) => add_word(steps, homes, site, word_of(*holds)),
        Form::Text(_) => Ok(()),
        Form::Name(name) => {
            let ins = homes.slots_named(name.bytes.as_slice())?;
            add_copy(steps, homes, site, ins)
        }
        Form::Column(name) => {
            let ins = homes.column_around(around, name.bytes.as_slice())?;
            add_copy(steps, homes, site, ins)
        }
        Form::Field(name, column) => {
            let ins = homes.field_of(name.bytes.as_slice(), column.bytes.as_slice())?;
            add_copy(steps, homes, site, ins)
        }
        Form::Unary(op, dotted, operand) => {
            add_expr(operand.get(), homes, around, steps)?;
            add_unary(steps, homes, site, *op, *dotted, operand.get())
        }
        Form::Binary(op, dotted, left, right) => {
            add_expr(left.get(), homes, around, steps)?;
            add_second(
                right.get(),
                homes,
                around,
                steps,
                site,
                *op,
                *dotted,
                left.get(),
            )
        }
        Form::Index(array, index) => {
            add_expr(array.get(), homes, around, steps)?;
            add_expr(index.get(), homes, around, steps)?;
            add_index(steps, homes, site, array.get(), index.get())
        }
        Form::Call(function, dotted, args) => {
            let name = function.bytes.as_slice();
            add_args(
                args.as_slice(),
                homes,
                around,
                frame_around(name, args.as_slice(), around),
                steps,
            )?;
            add_call(steps, homes, site, name, *dotted, args.as_slice())
        }
    }
}

/// Adds the second side of an operator, and the operator: behind it, or with it in a branch.
#[cycle(exprs)]
#[tactic(auto, using(crate::proofs::ExprForms::binary_lazy, crate::proofs::ExprForms::binary_eager))]
fn add_second(
    y: &Expr,
    homes: &Homes<'_>,
    around: Option<NodeId>,
    steps: &mut Steps,
    site: Site,
    op: BinOp,
    dotted: bool,
    x: &Expr,
) -> Result<(), NoMemory>
    ensures { OnOk result (program_in steps.new ≡ joined (program_in steps.old) (binary_code homes.now (head_in site) op dotted (tree_of x.now) (tree_of y.now) (flat homes.now (frame_at_node homes.now.known around) (tree_of y.now)))) }
{
    if is_lazy(op, dotted) {
        let mut second = Steps::new(homes.alloc());
        add_expr(y, homes, around, &mut second)?;
        add_lazy(steps, homes, site, op, x, y, second)
    } else {
        add_expr(y, homes, around, steps)?;
        add_eager(steps, homes, site, op, dotted, x, y)
    }
}

/// Adds the steps of arguments; the first sees one frame, and those behind it another.
#[cycle(exprs)]
#[tactic(auto, using(crate::proofs::ExprForms::argument_forms))]
fn add_args(
    args: &[Arg],
    homes: &Homes<'_>,
    around: Option<NodeId>,
    behind: Option<NodeId>,
    steps: &mut Steps,
) -> Result<(), NoMemory>
    ensures { OnOk result (program_in steps.new ≡ joined (program_in steps.old) (flat_among homes.now (frame_at_node homes.now.known around) (frame_at_node homes.now.known behind) (args_of args.now))) }
{
    let mut seen = around;
    for arg in args {
        add_arg(arg, homes, seen, steps)?;
        seen = behind;
    }
    Ok(())
}

/// Adds the steps of an argument.
#[cycle(exprs)]
#[tactic(auto, using(crate::proofs::ExprForms::argument_forms))]
fn add_arg(
    arg: &Arg,
    homes: &Homes<'_>,
    around: Option<NodeId>,
    steps: &mut Steps,
) -> Result<(), NoMemory>
    ensures { OnOk result (program_in steps.new ≡ joined (program_in steps.old) (flat_among homes.now (frame_at_node homes.now.known around) (frame_at_node homes.now.known around) (args_of (arg.now ∷ [])))) }
{
    match arg {
        Arg::Plain(x) | Arg::Named(_, _, x) => add_expr(x, homes, around, steps),
        Arg::Range(first, last) => {
            add_expr(first, homes, around, steps)?;
            add_expr(last, homes, around, steps)
        }
        Arg::Lambda(..) => Ok(()),
    }
}
