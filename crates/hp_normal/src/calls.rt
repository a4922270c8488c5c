// Calls as operations of the array IR.

ghost use Rattle.std.specs.Prelude.{◌≡◌, IfOk};
ghost use Rattle.hp_script.specs.Mirror.{tree_of, args_of};
ghost use Rattle.hp_flat.specs.Elements.{reach_of};
ghost use Rattle.hp_flat.specs.FlatCalls.{scalar_code, fill_code, range_code, map_code, call_code, dotted_call, named_call};
ghost use Rattle.hp_normal.specs.Programs.{code_in, head_in, sides_at, folded_code, length_code, scan_code, stencilled_code, matrix_row_code};

use crate::elements::elem_of;
use crate::frames::{
    concat_what, filter_what, frame_what, group_what, join_what, read_what, sort_what, stack_what,
};
use crate::homes::{Homes, Site};
use crate::operators::{dotted_elem, dotted_what};
use crate::reach::reach_of;
use crate::sides::{array_among, first_among};
use crate::values::values_among;
use hp_air::what::What;
use hp_meaning::args::{lambda_and_plain, one_range, two_plain};
use hp_meaning::operators::scalar_calc;
use hp_script::function::{Function, ScalarFunction};
use hp_script::tree::{Arg, Expr};
use hp_word::elem::Elem;
use hp_word::fold::FoldKind;
use hp_word::place::NoMemory;

/// `div`, `rem`, `min` and `max` of two words
fn scalar_what(
    homes: &Homes<'_>,
    site: Site,
    function: ScalarFunction,
    args: &[Arg],
) -> Result<Option<What>, NoMemory>
    ensures { IfOk result (λ made. code_in site.at made ≡ scalar_code homes.now (head_in site) function (args_of args.now)) }
{
    let Ok((x, y)) = two_plain(args) else {
        return Ok(None);
    };
    Ok(Some(What::Calc {
        to: homes.word_at(site.id)?,
        op: scalar_calc(function),
        left: homes.word_of(x)?,
        right: homes.word_of(y)?,
    }))
}

/// The fold of the elements of an array.
#[tactic(auto, using(crate::proofs::ArrayForms::slot_forms))]
fn fold_what(
    homes: &Homes<'_>,
    site: Site,
    kind: FoldKind,
    values: &[u32],
) -> Result<Option<What>, NoMemory>
    ensures { IfOk result (λ made. code_in site.at made ≡ folded_code homes.now (head_in site) kind (sides_at homes.now.known values.now)) }
{
    match array_among(homes, values, 0)? {
        Some(array) => Ok(Some(What::Reduce {
            to: homes.word_at(site.id)?,
            kind,
            array,
            elem: Elem::Input(0),
        })),
        None => Ok(None),
    }
}

/// `length` of an array, and `nrow` of a frame
#[tactic(auto, using(crate::proofs::ArrayForms::slot_forms))]
fn length_what(homes: &Homes<'_>, site: Site, values: &[u32]) -> Result<Option<What>, NoMemory>
    ensures { IfOk result (λ made. code_in site.at made ≡ length_code homes.now (head_in site) (sides_at homes.now.known values.now)) }
{
    match first_among(homes, values)? {
        Some(array) => Ok(Some(What::Length {
            to: homes.word_at(site.id)?,
            array,
        })),
        None => Ok(None),
    }
}

/// `fill`, of two words
fn fill_what(homes: &Homes<'_>, site: Site, args: &[Arg]) -> Result<Option<What>, NoMemory>
    ensures { IfOk result (λ made. code_in site.at made ≡ fill_code homes.now (head_in site) (args_of args.now)) }
{
    let Ok((value, count)) = two_plain(args) else {
        return Ok(None);
    };
    Ok(Some(What::Fill {
        out: homes.out_of(site.id)?,
        value: homes.word_of(value)?,
        count: homes.word_of(count)?,
    }))
}

/// `collect` of a range
fn range_what(homes: &Homes<'_>, site: Site, args: &[Arg]) -> Result<Option<What>, NoMemory>
    ensures { IfOk result (λ made. code_in site.at made ≡ range_code homes.now (head_in site) (args_of args.now)) }
{
    let Ok((first, last)) = one_range(args) else {
        return Ok(None);
    };
    Ok(Some(What::Range {
        out: homes.out_of(site.id)?,
        first: homes.word_of(first)?,
        last: homes.word_of(last)?,
    }))
}

/// `cumsum`
#[tactic(auto, using(crate::proofs::ArrayForms::slot_forms))]
fn scan_what(homes: &Homes<'_>, site: Site, values: &[u32]) -> Result<Option<What>, NoMemory>
    ensures { IfOk result (λ made. code_in site.at made ≡ scan_code homes.now (head_in site) (sides_at homes.now.known values.now)) }
{
    match array_among(homes, values, 0)? {
        Some(array) => Ok(Some(What::Scan {
            out: homes.out_of(site.id)?,
            array,
        })),
        None => Ok(None),
    }
}

/// `map`
fn map_what(homes: &Homes<'_>, site: Site, args: &[Arg]) -> Result<Option<What>, NoMemory>
    ensures { IfOk result (λ made. code_in site.at made ≡ map_code homes.now (head_in site) (args_of args.now)) }
{
    let Ok((parameter, body, x)) = lambda_and_plain(args) else {
        return Ok(None);
    };
    let elem = elem_of(homes, parameter.bytes.as_slice(), body)?;
    Ok(Some(What::Map {
        out: homes.out_of(site.id)?,
        ins: homes.ins_of(x)?,
        elem,
    }))
}

/// How far the body of a stencil looks.
fn reach_in(body: &Expr) -> Result<u32, NoMemory>
    ensures { IfOk result (λ reach. reach ≡ reach_of (tree_of body.now)) }
{
    match u32::try_from(reach_of(body)) {
        Ok(reach) => Ok(reach),
        Err(_) => Err(NoMemory),
    }
}

/// `stencil`, which reads its array by a balanced copy of its own
#[tactic(auto, using(crate::proofs::ArrayForms::slot_forms))]
fn stencil_what(homes: &Homes<'_>, site: Site, args: &[Arg]) -> Result<Option<What>, NoMemory>
    ensures { IfOk result (λ made. code_in site.at made ≡ stencilled_code homes.now (head_in site) (args_of args.now)) }
{
    let Ok((parameter, body, x)) = lambda_and_plain(args) else {
        return Ok(None);
    };
    let Some(array) = homes.array_of(x)? else {
        return Ok(None);
    };
    let elem = elem_of(homes, parameter.bytes.as_slice(), body)?;
    Ok(Some(What::Stencil {
        out: homes.out_of(site.id)?,
        array,
        balanced: homes.copy_slot(site.id)?,
        reach: reach_in(body)?,
        elem,
    }))
}

/// `row` of a matrix
#[tactic(auto, using(crate::proofs::ArrayForms::slot_forms))]
fn row_what(homes: &Homes<'_>, site: Site, args: &[Arg]) -> Result<Option<What>, NoMemory>
    ensures { IfOk result (λ made. code_in site.at made ≡ matrix_row_code homes.now (head_in site) (args_of args.now)) }
{
    let Ok((x, index)) = two_plain(args) else {
        return Ok(None);
    };
    match homes.array_of(x)? {
        Some(matrix) => Ok(Some(What::Row {
            out: homes.out_of(site.id)?,
            matrix,
            index: homes.word_of(index)?,
        })),
        None => Ok(None),
    }
}

/// A call by its arguments, and those of them that are values.
#[tactic(auto, unfolding(hp_flat::specs::FlatCalls::call_code, crate::specs::Programs::on_array, crate::specs::Programs::on_arrays, crate::specs::Programs::on_first))]
fn call_what(
    homes: &Homes<'_>,
    site: Site,
    function: Function,
    args: &[Arg],
    values: &[u32],
) -> Result<Option<What>, NoMemory>
    ensures { IfOk result (λ made. code_in site.at made ≡ call_code homes.now (head_in site) function (args_of args.now) (sides_at homes.now.known values.now)) }
{
    match function {
        Function::Scalar(scalar) => scalar_what(homes, site, scalar, args),
        Function::Fold(kind) => fold_what(homes, site, kind, values),
        Function::Count => fold_what(homes, site, FoldKind::Sum, values),
        Function::Length | Function::Nrow => length_what(homes, site, values),
        Function::Fill => fill_what(homes, site, args),
        Function::Collect => range_what(homes, site, args),
        Function::Cumsum => scan_what(homes, site, values),
        Function::Map => map_what(homes, site, args),
        Function::Stencil => stencil_what(homes, site, args),
        Function::Vcat => concat_what(homes, site, values),
        Function::DataFrame => frame_what(homes, site, values),
        Function::ReadCsv => read_what(homes, site),
        Function::Filter => filter_what(homes, site, values),
        Function::Join => join_what(homes, site, args),
        Function::Aggregate => group_what(homes, site, args),
        Function::Sort => sort_what(homes, site, args),
        Function::Stack => stack_what(homes, site, values),
        Function::Row => row_what(homes, site, args),
        Function::Transpose => Ok(None),
    }
}

/// A dotted call of a function of two numbers.
fn dotted_call_what(
    homes: &Homes<'_>,
    site: Site,
    function: Function,
    args: &[Arg],
) -> Result<Option<What>, NoMemory>
    ensures { IfOk result (λ made. code_in site.at made ≡ dotted_call homes.now (head_in site) function (args_of args.now)) }
{
    let Function::Scalar(scalar) = function else {
        return Ok(None);
    };
    let Ok((x, y)) = two_plain(args) else {
        return Ok(None);
    };
    let elem = dotted_elem(homes, site.at, scalar_calc(scalar), x, y)?;
    dotted_what(homes, site, elem, x, y)
}

/// A call of a name.
#[tactic(auto, using(crate::proofs::ValueForms::sides_are), unfolding(hp_flat::specs::FlatCalls::named_call))]
pub fn named_what(
    homes: &Homes<'_>,
    site: Site,
    dotted: bool,
    function: Option<Function>,
    args: &[Arg],
) -> Result<Option<What>, NoMemory>
    ensures { IfOk result (λ made. code_in site.at made ≡ named_call homes.now (head_in site) dotted function (args_of args.now)) }
{
    let Some(function) = function else {
        return Ok(None);
    };
    if dotted {
        dotted_call_what(homes, site, function, args)
    } else {
        let values = values_among(homes.alloc(), args)?;
        call_what(homes, site, function, args, values.as_slice())
    }
}
