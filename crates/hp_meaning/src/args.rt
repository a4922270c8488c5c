// The arguments of calls by their shapes.

ghost use Rattle.std.specs.Prelude.{◌≡◌, ◌∷◌, [], map};
ghost use Rattle.hp_script.specs.Mirror.{tree_of, args_of};
ghost use Rattle.hp_meaning.specs.HeldValues.{Finds, FindsAll, measured_in};
ghost use Rattle.hp_meaning.specs.ArgumentShapes.{one_plain, two_plain, three_plain, first_plain, one_range, lambda_and_plain, all_written};
ghost use Rattle.hp_meaning.specs.ValueOf.{column_name, is_text, names_in, measure_of, measures_in, sole_column, measure_by};

pub use crate::groups::Wanted;
use crate::seen::Stop;
use hp_script::function::{Function, function_of};
use hp_script::tree::{Arg, Expr, Form};
use hp_word::fold::FoldKind;
use hp_word::name::Name;
use hp_word::table::MeasureKind;
use std::alloc::Global;

/// The expression of a plain argument.
#[tactic(auto, unfolding(crate::specs::ArgumentShapes::one_plain, hp_script::specs::Mirror::arg_of, hp_script::specs::Mirror::args_of, hp_script::specs::Mirror::form_of, hp_script::specs::Mirror::tree_of))]
fn plain_of(arg: &Arg) -> Result<&Expr, Stop>
    ensures { Finds (λ x. tree_of x.now) (one_plain (args_of (arg.now ∷ []))) result }
{
    match arg {
        Arg::Plain(x) => Ok(x),
        _ => Err(Stop::Wrong),
    }
}

/// The first argument, where it is a plain one, and those behind it.
#[tactic(auto, unfolding(hp_script::specs::Mirror::arg_of, hp_script::specs::Mirror::args_of, hp_script::specs::Mirror::form_of, hp_script::specs::Mirror::tree_of))]
pub fn first_plain(args: &[Arg]) -> Result<(&Expr, &[Arg]), Stop>
    ensures { Finds (λ x. (tree_of x.0.now, args_of x.1.now)) (first_plain (args_of args.now)) result }
{
    let Some((first, rest)) = args.split_first() else {
        return Err(Stop::Wrong);
    };
    match first {
        Arg::Plain(x) => Ok((x, rest)),
        _ => Err(Stop::Wrong),
    }
}

/// The only argument, where it is a plain one.
#[tactic(auto, using(crate::proofs::ArgumentLemmas::last_none), unfolding(crate::specs::ArgumentShapes::one_plain, hp_script::specs::Mirror::arg_of, hp_script::specs::Mirror::args_of, hp_script::specs::Mirror::form_of, hp_script::specs::Mirror::tree_of))]
pub fn one_plain(args: &[Arg]) -> Result<&Expr, Stop>
    ensures { Finds (λ x. tree_of x.now) (one_plain (args_of args.now)) result }
{
    let (x, rest) = first_plain(args)?;
    if rest.is_empty() {
        Ok(x)
    } else {
        Err(Stop::Wrong)
    }
}

/// The two arguments, where they are plain ones.
#[tactic(auto, unfolding(crate::specs::ArgumentShapes::two_plain, hp_script::specs::Mirror::arg_of, hp_script::specs::Mirror::args_of, hp_script::specs::Mirror::form_of, hp_script::specs::Mirror::tree_of))]
pub fn two_plain(args: &[Arg]) -> Result<(&Expr, &Expr), Stop>
    ensures { Finds (λ x. (tree_of x.0.now, tree_of x.1.now)) (two_plain (args_of args.now)) result }
{
    let (x, rest) = first_plain(args)?;
    let y = one_plain(rest)?;
    Ok((x, y))
}

/// The three arguments, where they are plain ones.
#[tactic(auto, unfolding(crate::specs::ArgumentShapes::three_plain, hp_script::specs::Mirror::arg_of, hp_script::specs::Mirror::args_of, hp_script::specs::Mirror::form_of, hp_script::specs::Mirror::tree_of))]
pub fn three_plain(args: &[Arg]) -> Result<(&Expr, &Expr, &Expr), Stop>
    ensures { Finds (λ x. (tree_of x.0.now, tree_of x.1.now, tree_of x.2.now)) (three_plain (args_of args.now)) result }
{
    let (x, rest) = first_plain(args)?;
    let (y, z) = two_plain(rest)?;
    Ok((x, y, z))
}

/// The two ends of the only argument, where it is a range.
#[tactic(auto, using(crate::proofs::ArgumentLemmas::range_none), unfolding(crate::specs::ArgumentShapes::one_range, hp_script::specs::Mirror::arg_of, hp_script::specs::Mirror::args_of, hp_script::specs::Mirror::form_of, hp_script::specs::Mirror::tree_of))]
pub fn one_range(args: &[Arg]) -> Result<(&Expr, &Expr), Stop>
    ensures { Finds (λ x. (tree_of x.0.now, tree_of x.1.now)) (one_range (args_of args.now)) result }
{
    let Some((first, rest)) = args.split_first() else {
        return Err(Stop::Wrong);
    };
    if !rest.is_empty() {
        return Err(Stop::Wrong);
    }
    match first {
        Arg::Range(x, y) => Ok((x, y)),
        _ => Err(Stop::Wrong),
    }
}

/// The parameter and the body of a lambda, and the plain argument behind it.
#[tactic(auto, unfolding(crate::specs::ArgumentShapes::lambda_and_plain, hp_script::specs::Mirror::arg_of, hp_script::specs::Mirror::args_of, hp_script::specs::Mirror::form_of, hp_script::specs::Mirror::tree_of))]
pub fn lambda_and_plain(args: &[Arg]) -> Result<(&Name, &Expr, &Expr), Stop>
    ensures { Finds (λ x. (x.0.now.bytes, tree_of x.1.now, tree_of x.2.now)) (lambda_and_plain (args_of args.now)) result }
{
    let Some((first, rest)) = args.split_first() else {
        return Err(Stop::Wrong);
    };
    let x = one_plain(rest)?;
    match first {
        Arg::Lambda(parameter, body) => Ok((parameter, body, x)),
        _ => Err(Stop::Wrong),
    }
}

/// The name of a column.
#[tactic(auto, unfolding(hp_script::specs::Mirror::form_of, hp_script::specs::Mirror::tree_of))]
pub fn column_name(x: &Expr) -> Result<&Name, Stop>
    ensures { Finds (λ name. name.now.bytes) (column_name (tree_of x.now)) result }
{
    match &x.form {
        Form::Column(name) => Ok(name),
        _ => Err(Stop::Wrong),
    }
}

/// Whether an expression is a text.
#[tactic(auto, unfolding(hp_script::specs::Mirror::form_of, hp_script::specs::Mirror::tree_of))]
pub fn is_text(x: &Expr) -> bool
    ensures { result ≡ is_text (tree_of x.now) }
{
    matches!(&x.form, Form::Text(_))
}

/// The names of the columns that the arguments are.
#[tactic(auto, unfolding(crate::specs::ValueOf::names_in, hp_script::specs::Mirror::arg_of, hp_script::specs::Mirror::args_of, hp_script::specs::Mirror::tree_of))]
pub fn names_in(alloc: Global, args: &[Arg]) -> Result<Vec<&Name>, Stop>
    ensures { FindsAll (λ names. map (λ name. name.now.bytes) names.items) (names_in (all_written (args_of args.now))) result }
{
    let mut names = Vec::new(alloc);
    for arg in args {
        let x = plain_of(arg)?;
        names.push(column_name(x)?)?;
    }
    Ok(names)
}

/// The column that is the only argument.
#[tactic(auto, unfolding(hp_script::specs::Mirror::arg_of, hp_script::specs::Mirror::args_of, hp_script::specs::Mirror::tree_of))]
fn sole_column(args: &[Arg]) -> Result<&Name, Stop>
    ensures { Finds (λ name. name.now.bytes) (sole_column (args_of args.now)) result }
{
    let x = one_plain(args)?;
    column_name(x)
}

/// What a measure works out, and the column that it is of.
#[tactic(auto, unfolding(hp_script::specs::Mirror::arg_of, hp_script::specs::Mirror::args_of, hp_script::specs::Mirror::tree_of))]
fn measure_by(function: Function, args: &[Arg]) -> Result<(MeasureKind, &[u8]), Stop>
    ensures { Finds (λ m. (m.0, m.1.now)) (measure_by (Some function) (args_of args.now)) result }
{
    let kind = match function {
        Function::Fold(FoldKind::Sum) => MeasureKind::Sum,
        Function::Fold(FoldKind::Min) => MeasureKind::Min,
        Function::Fold(FoldKind::Max) => MeasureKind::Max,
        Function::Count => {
            if args.is_empty() {
                return Ok((MeasureKind::Count, b"".as_slice()));
            }
            return Err(Stop::Wrong);
        }
        _ => return Err(Stop::Wrong),
    };
    let name = sole_column(args)?;
    Ok((kind, name.bytes.as_slice()))
}

/// The measure that an expression is.
#[tactic(auto, unfolding(crate::specs::ValueOf::measure_of, hp_script::specs::Mirror::form_of, hp_script::specs::Mirror::tree_of))]
fn measure_of(x: &Expr) -> Result<(MeasureKind, &[u8]), Stop>
    ensures { Finds (λ m. (m.0, m.1.now)) (measure_of (tree_of x.now)) result }
{
    let Form::Call(name, dotted, args) = &x.form else {
        return Err(Stop::Wrong);
    };
    match function_of(name.bytes.as_slice(), *dotted) {
        Some(function) => measure_by(function, args.as_slice()),
        None => Err(Stop::Wrong),
    }
}

/// The measures that the arguments are.
#[tactic(auto, unfolding(crate::specs::ValueOf::measures_in, hp_script::specs::Mirror::arg_of, hp_script::specs::Mirror::args_of, hp_script::specs::Mirror::tree_of))]
pub fn measures_in(alloc: Global, args: &[Arg]) -> Result<Vec<Wanted<'_>>, Stop>
    ensures { FindsAll (λ wanted. map measured_in wanted.items) (measures_in (all_written (args_of args.now))) result }
{
    let mut measures = Vec::new(alloc);
    for arg in args {
        let Arg::Named(name, _, x) = arg else {
            return Err(Stop::Wrong);
        };
        let (kind, of_it) = measure_of(x)?;
        measures.push(Wanted { name, kind, of_it })?;
    }
    Ok(measures)
}
