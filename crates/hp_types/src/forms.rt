// Forms of expressions, and the tests of a call itself.

ghost use Rattle.std.specs.Prelude.{◌≡◌, ◌<◌, ◌++◌, [], ◌∷◌, length, slice_set, IsTrue, IsSome, Option, Some, None, OnOk, IfOk};
ghost use Rattle.std.specs.Option.{is_some, option_map};
ghost use Rattle.hp_script.specs.declared.rule.Rule.TheVariants.{WrongType};
ghost use Rattle.hp_script.specs.declared.typed.Shape.TheVariants.{Frame};
ghost use Rattle.hp_script.specs.Breaks.{unless, is_flipped, is_transpose_call, measure_break, call_break, result_break, reach_break, distance_of, repeats};
ghost use Rattle.hp_script.specs.Entries.{no_shapes, file_of_call, columns_among};
ghost use Rattle.hp_script.specs.Mirror.{tree_of, args_of};
ghost use Rattle.hp_script.specs.Scope.{Scope as SpecScope};
ghost use Rattle.hp_script.specs.Typing.{is_window, frames_among};
ghost use Rattle.hp_script.specs.Valued.{is_measure};
ghost use Rattle.hp_types.specs.Answers.{Passes, Tells};
ghost use Rattle.hp_types.specs.Forms.{number_in, is_negation, is_measure_call, measures_column};
ghost use Rattle.hp_types.specs.Known.{listed, column_in, text_in};
ghost use Rattle.hp_script.specs.Walk.{entries_of};

use crate::error::{CheckError, broken, demand};
use crate::found::Found;
use crate::scope::{ParameterRole, Scope};
use crate::wanted::known_in;
use hp_script::argument::Argument;
use hp_script::columns::ColumnName;
use hp_script::function::Function;
use hp_script::rule::Rule;
use hp_script::tree::{Arg, BinOp, Expr, Form, UnOp};
use hp_script::typed::{ReadSpec, Shape};
use hp_word::name::{Name, copied_name};
use hp_word::place::{NoMemory, Place};
use hp_word::sequence::Sequence;
use indexmap::IndexSet;
use std::alloc::Global;

/// The greatest reach of a stencil.
const WIDEST_REACH: i64 = 64;

/// The greatest number of columns of a frame.
const MOST_COLUMNS: usize = 1024;

/// Puts in the type of an operator or a call at a place; without one it fits no row of the language.
pub fn settle(
    found: &mut Found,
    number: usize,
    at: Place,
    shape: Option<Shape>,
) -> Result<Shape, CheckError>
    requires { number < length found.old.shapes }
    ensures told { Tells (unless (is_some shape) at WrongType) shape result }
    ensures shapes { OnOk result (found.new.shapes ≡ slice_set found.old.shapes number shape) }
    ensures reads { OnOk result (found.new.reads ≡ found.old.reads) }
{
    let Some(shape) = shape else {
        return Err(broken(at, Rule::WrongType));
    };
    found.set(number, &shape)?;
    Ok(shape)
}

/// Whether an expression is the parameter of a stencil.
#[tactic(auto, unfolding(hp_script::specs::Mirror::tree_of, hp_script::specs::Mirror::form_of))]
pub fn is_window(scope: &Scope<'_>, x: &Expr) -> bool
    ensures { result ≡ is_window scope.now (tree_of x.now) }
{
    match &x.form {
        Form::Name(name) => matches!(
            scope.role_of(name.bytes.as_slice()),
            Some(ParameterRole::Window)
        ),
        _ => false,
    }
}

/// Whether an expression is a call of `transpose`.
#[tactic(auto, using(crate::proofs::FormLemmas::tree_call), unfolding(hp_script::specs::Mirror::tree_of, hp_script::specs::Mirror::form_of))]
fn is_transpose_call(x: &Expr) -> bool
    ensures { result ≡ is_transpose_call (tree_of x.now) }
{
    match &x.form {
        Form::Call(name, false, _) => name.bytes.as_slice() == b"transpose".as_slice(),
        _ => false,
    }
}

/// Whether the right side of an operator is a transposed matrix of a product, outside of lambdas.
pub fn is_flipped(scope: &Scope<'_>, op: BinOp, dotted: bool, right: &Expr) -> bool
    ensures { result ≡ is_flipped scope.now op dotted (tree_of right.now) }
{
    matches!(op, BinOp::Mul) && !dotted && !scope.is_in_lambda() && is_transpose_call(right)
}

/// The value of an expression that is a number.
#[tactic(auto, unfolding(hp_script::specs::Mirror::tree_of, hp_script::specs::Mirror::form_of))]
fn number_in(x: &Expr) -> Option<i64>
    ensures { result ≡ number_in (tree_of x.now) }
{
    match x.form {
        Form::Number(value) => Some(value),
        _ => None,
    }
}

/// Whether an operator is the sign of a negative number.
fn is_negation(op: UnOp, dotted: bool) -> bool
    ensures { result ≡ is_negation op dotted }
{
    matches!(op, UnOp::Neg) && !dotted
}

/// How far from an element `p[d]` is, where it is a number or `-` and a number.
#[tactic(auto, using(crate::proofs::FormLemmas::tree_unary, crate::proofs::FormLemmas::distance_unary), unfolding(hp_script::specs::Mirror::tree_of, hp_script::specs::Mirror::form_of))]
fn distance_of(place: &Expr) -> Option<i64>
    ensures { result ≡ distance_of (tree_of place.now) }
{
    let Form::Unary(op, dotted, operand) = &place.form else {
        return number_in(place);
    };
    if is_negation(*op, *dotted) {
        number_in(operand.get())
    } else {
        None
    }
}

/// Tests `p[d]` of a stencil's parameter at the first place, with its bracket at the second.
pub fn test_reach(at: Place, bracket: Place, place: &Expr) -> Result<(), CheckError>
    ensures { Passes (reach_break at bracket (distance_of (tree_of place.now))) result }
{
    match distance_of(place) {
        Some(distance) => demand(
            -WIDEST_REACH <= distance && distance <= WIDEST_REACH,
            bracket,
            Rule::ReachTooWide,
        ),
        None => Err(broken(at, Rule::WrongType)),
    }
}

/// Adds the parts of a distance.
#[tactic(auto, using(crate::proofs::FormLemmas::tree_unary, crate::proofs::FormLemmas::entries_unary), unfolding(hp_script::specs::Mirror::tree_of, hp_script::specs::Mirror::form_of, hp_script::specs::Walk::found_of))]
pub fn add_distance(found: &mut Found, place: &Expr) -> Result<(), NoMemory>
    requires { IsSome (distance_of (tree_of place.now)) }
    ensures shapes { OnOk result ((s : SpecScope) → found.new.shapes ≡ found.old.shapes ++ entries_of s (tree_of place.now)) }
    ensures reads { OnOk result (found.new.reads ≡ found.old.reads) }
{
    if let Form::Unary(..) = &place.form {
        found.add(&Shape::Int)?;
    }
    found.add(&Shape::Int)
}

/// Whether a call of this function is a measure of `aggregate`.
#[tactic(auto, unfolding(hp_script::specs::Mirror::args_of))]
fn is_measure_call(function: &[u8], args: &[Arg]) -> bool
    ensures { result ≡ is_measure_call function.now (args_of args.now) }
{
    match args {
        [] => function == b"count".as_slice(),
        [only] => is_column(only) && measures_column(function),
        _ => false,
    }
}

/// Whether a function is one that measures a column.
fn measures_column(function: &[u8]) -> bool
    ensures { result ≡ measures_column function.now }
{
    function == b"sum".as_slice()
        || function == b"minimum".as_slice()
        || function == b"maximum".as_slice()
}

/// Whether an expression is a measure of `aggregate`.
#[tactic(auto, using(crate::proofs::FormLemmas::tree_call, crate::proofs::FormLemmas::measure_call), unfolding(hp_script::specs::Mirror::tree_of, hp_script::specs::Mirror::form_of))]
pub fn is_measure(x: &Expr) -> bool
    ensures { result ≡ is_measure (tree_of x.now) }
{
    match &x.form {
        Form::Call(name, false, args) => is_measure_call(name.bytes.as_slice(), args.as_slice()),
        _ => false,
    }
}

/// Whether an argument is the name of a column.
fn is_column(arg: &Arg) -> bool
    ensures { result ≡ is_some (column_in (args_of (arg.now ∷ []))) }
{
    column_of(arg).is_some()
}

/// The expression of a plain argument and the column that it names, where it is the name of one.
#[tactic(auto, unfolding(hp_script::specs::Mirror::tree_of, hp_script::specs::Mirror::form_of, hp_script::specs::Mirror::args_of, hp_script::specs::Mirror::arg_of))]
fn column_of(arg: &Arg) -> Option<(Place, &Name)>
    ensures { option_map (λ found. (found.0, found.1.now.bytes)) result ≡ column_in (args_of (arg.now ∷ [])) }
{
    match arg {
        Arg::Plain(x) => match &x.form {
            Form::Column(name) => Some((x.at, name)),
            _ => None,
        },
        _ => None,
    }
}

/// The expression of the first argument and the column that it names, where it is the name of one.
#[tactic(auto, using(crate::proofs::FormLemmas::column_first), unfolding(hp_script::specs::Mirror::args_of))]
fn first_column(args: &[Arg]) -> Option<(Place, &Name)>
    ensures { option_map (λ found. (found.0, found.1.now.bytes)) result ≡ column_in (args_of args.now) }
{
    let (first, _) = args.split_first()?;
    column_of(first)
}

/// Tests the column of a measure, if it has one, by the frames among these arguments.
#[tactic(auto, using(crate::proofs::FormLemmas::tree_call, crate::proofs::FormLemmas::measure_column), unfolding(hp_script::specs::Mirror::tree_of, hp_script::specs::Mirror::form_of))]
pub fn test_measure(frames: &[Argument], x: &Expr) -> Result<(), CheckError>
    ensures { Passes (measure_break (frames_among frames.now) (tree_of x.now)) result }
{
    let Form::Call(_, _, args) = &x.form else {
        return Ok(());
    };
    match first_column(args.as_slice()) {
        Some((at, name)) => demand(
            known_in(frames, name.bytes.as_slice()),
            at,
            Rule::UnknownColumn,
        ),
        None => Ok(()),
    }
}

/// Adds the parts of a measure, which have no value.
#[tactic(auto, unfolding(hp_script::specs::Mirror::tree_of, hp_script::specs::Mirror::form_of))]
pub fn add_measure(found: &mut Found, x: &Expr) -> Result<(), NoMemory>
    requires { IsTrue (is_measure (tree_of x.now)) }
    ensures shapes { OnOk result (found.new.shapes ≡ found.old.shapes ++ no_shapes (tree_of x.now)) }
    ensures reads { OnOk result (found.new.reads ≡ found.old.reads) }
{
    found.add_none()?;
    if let Form::Call(_, _, args) = &x.form {
        if !args.is_empty() {
            found.add_none()?;
        }
    }
    Ok(())
}

/// Adds the column that an argument names, if it names one.
#[tactic(auto, using(std::proofs::lemmas::Grind::common_steps, crate::proofs::FormLemmas::columns_one))]
fn add_column(alloc: Global, columns: &mut Sequence<Name>, arg: &Arg) -> Result<(), NoMemory>
    ensures { OnOk result (columns.new ≡ columns.old ++ columns_among (args_of (arg.now ∷ []))) }
{
    if let Some((_, name)) = column_of(arg) {
        columns.push(copied_name(alloc, name)?)?;
    }
    Ok(())
}

/// The names of columns among arguments.
#[tactic(auto, using(std::proofs::lemmas::Grind::common_steps, crate::proofs::FormLemmas::columns_append), unfolding(hp_script::specs::Mirror::args_of))]
fn columns_among(alloc: Global, args: &[Arg]) -> Result<Sequence<Name>, NoMemory>
    ensures { IfOk result (λ columns. columns ≡ columns_among (args_of args.now)) }
{
    let mut columns = Sequence::new(alloc);
    for arg in args {
        add_column(alloc, &mut columns, arg)?;
    }
    Ok(columns)
}

/// The file that a call reads, if it reads one.
#[tactic(auto, using(crate::proofs::FormLemmas::file_call), unfolding(hp_script::specs::Mirror::args_of))]
pub fn file_of(
    alloc: Global,
    name: &[u8],
    dotted: bool,
    args: &[Arg],
) -> Result<Option<ReadSpec>, NoMemory>
    ensures { IfOk result (λ file. listed file ≡ file_of_call name.now dotted (args_of args.now)) }
{
    if dotted || name != b"read_csv".as_slice() {
        return Ok(None);
    }
    let Some((first, rest)) = args.split_first() else {
        return Ok(None);
    };
    let Some(text) = text_of(first) else {
        return Ok(None);
    };
    let file = copied_name(alloc, text)?;
    let columns = columns_among(alloc, rest)?;
    Ok(Some(ReadSpec { file, columns }))
}

/// The text of a plain argument, where it is one.
#[tactic(auto, unfolding(hp_script::specs::Mirror::tree_of, hp_script::specs::Mirror::form_of, hp_script::specs::Mirror::args_of, hp_script::specs::Mirror::arg_of))]
fn text_of(arg: &Arg) -> Option<&Name>
    ensures { option_map (λ found. found.now) result ≡ text_in (args_of (arg.now ∷ [])) }
{
    match arg {
        Arg::Plain(x) => match &x.form {
            Form::Text(text) => Some(text),
            _ => None,
        },
        _ => None,
    }
}

/// Whether two of these columns have one name.
fn repeats(alloc: Global, columns: &[ColumnName]) -> Result<bool, NoMemory>
    ensures { IfOk result (λ holds. holds ≡ repeats columns.now) }
{
    let mut seen = IndexSet::new(alloc);
    for column in columns {
        if !seen.insert(column.name().bytes.as_slice())? {
            return Ok(true);
        }
    }
    Ok(false)
}

/// Tests the columns of the frame that a call of this function gives.
#[tactic(auto, unfolding(hp_script::specs::Breaks::result_break))]
fn test_columns(
    alloc: Global,
    function: Function,
    at: Place,
    columns: &[ColumnName],
) -> Result<(), CheckError>
    ensures { Passes (result_break function at (Some (Frame columns.now))) result }
{
    if let Function::Join = function {
        demand(!repeats(alloc, columns)?, at, Rule::DoubleColumn)?;
    }
    demand(columns.len() <= MOST_COLUMNS, at, Rule::TooManyColumns)
}

/// Tests a call of this function itself, by its result.
#[tactic(auto, unfolding(hp_script::specs::Breaks::call_break, hp_script::specs::Breaks::result_break))]
pub fn test_call(
    alloc: Global,
    scope: &Scope<'_>,
    function: Function,
    at: Place,
    shape: &Option<Shape>,
) -> Result<(), CheckError>
    ensures { Passes (call_break scope.now function at shape.now) result }
{
    if let Function::Transpose = function {
        return Err(broken(at, Rule::WrongType));
    }
    let allowed = !scope.is_in_lambda() || matches!(function, Function::Scalar(_));
    demand(allowed, at, Rule::WrongType)?;
    match shape {
        None => Err(broken(at, Rule::WrongType)),
        Some(Shape::Frame(columns)) => test_columns(alloc, function, at, columns.as_slice()),
        Some(_) => Ok(()),
    }
}
