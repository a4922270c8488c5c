// Operators and indices as operations of the array IR.

ghost use Rattle.std.specs.Prelude.{◌≡◌, false, Some, None, IfOk, OnOk};
ghost use Rattle.std.specs.Option.{option_map};
ghost use Rattle.hp_script.specs.declared.tree.BinOp.TheVariants.{Mul};
ghost use Rattle.hp_script.specs.Mirror.{tree_of};
ghost use Rattle.hp_program.specs.Programs.{joined};
ghost use Rattle.hp_flat.specs.Elements.{dotted_elem};
ghost use Rattle.hp_flat.specs.FlatCalls.{code_of, unary_code, dotted_code, product_code, multiplied, calculated_code, lazy_code, index_code};
ghost use Rattle.hp_normal.specs.Programs.{program_in, code_in, head_in, is_lazy, eager_code, is_transpose, flipped, operand_at, product_plain, product_flipped};

use crate::elements::{calc_elem, unary_calc};
use crate::homes::{Homes, Site};
use crate::steps::Steps;
use hp_air::what::What;
use hp_meaning::args::one_plain;
use hp_meaning::operators::calc_of;
use hp_script::tree::{BinOp, Expr, Form, UnOp};
use hp_word::elem::Elem;
use hp_word::place::{NoMemory, Place};
use hp_word::sequence::Sequence;
use hp_word::word::CalcOp;

/// `-` and `!`
#[tactic(auto, unfolding(hp_flat::specs::FlatCalls::unary_code))]
pub fn unary_what(
    homes: &Homes<'_>,
    site: Site,
    op: UnOp,
    dotted: bool,
    x: &Expr,
) -> Result<Option<What>, NoMemory>
    ensures { IfOk result (λ made. code_in site.at made ≡ unary_code homes.now (head_in site) op dotted (tree_of x.now)) }
{
    if dotted {
        let elem = calc_elem(
            homes.alloc(),
            unary_calc(op),
            site.at,
            Elem::Input(0),
            Elem::Number(0),
        )?;
        Ok(Some(What::Map {
            out: homes.out_of(site.id)?,
            ins: homes.ins_of(x)?,
            elem,
        }))
    } else {
        let word = homes.word_of(x)?;
        Ok(Some(What::Calc {
            to: homes.word_at(site.id)?,
            op: unary_calc(op),
            left: word,
            right: word,
        }))
    }
}

/// An operand of a dotted construct behind so many arrays: the next array, or a word.
#[tactic(auto, using(crate::proofs::ArrayForms::operand_word, crate::proofs::ArrayForms::operand_array))]
fn operand_elem(homes: &Homes<'_>, inputs: u32, x: &Expr) -> Result<Elem, NoMemory>
    ensures { IfOk result (λ made. made ≡ operand_at homes.now inputs (tree_of x.now)) }
{
    if homes.count_of(x)? == 0 {
        Ok(Elem::Word(homes.word_of(x)?))
    } else {
        Ok(Elem::Input(inputs))
    }
}

/// Two operands of a dotted construct.
#[tactic(auto, unfolding(hp_flat::specs::Elements::dotted_elem, crate::specs::Programs::operand_at))]
pub fn dotted_elem(
    homes: &Homes<'_>,
    at: Place,
    op: CalcOp,
    x: &Expr,
    y: &Expr,
) -> Result<Elem, NoMemory>
    ensures { IfOk result (λ made. made ≡ dotted_elem homes.now at op (tree_of x.now) (tree_of y.now)) }
{
    let a = operand_elem(homes, 0, x)?;
    let b = operand_elem(homes, homes.count_of(x)?, y)?;
    calc_elem(homes.alloc(), op, at, a, b)
}

/// A dotted construct of two operands.
#[tactic(auto, using(crate::proofs::ArrayForms::slots_of_both), unfolding(hp_flat::specs::FlatCalls::dotted_code))]
pub fn dotted_what(
    homes: &Homes<'_>,
    site: Site,
    elem: Elem,
    x: &Expr,
    y: &Expr,
) -> Result<Option<What>, NoMemory>
    ensures { IfOk result (λ made. code_in site.at made ≡ dotted_code homes.now (head_in site) elem (tree_of x.now) (tree_of y.now)) }
{
    let mut ins = homes.ins_of(x)?.into_vec();
    ins.extend_from_slice(homes.ins_of(y)?.as_slice())?;
    Ok(Some(What::Map {
        out: homes.out_of(site.id)?,
        ins: Sequence::from_vec(ins),
        elem,
    }))
}

/// Whether a call is one of `transpose`.
fn is_transpose(function: &[u8], dotted: bool) -> bool
    ensures { result ≡ is_transpose dotted function.now }
{
    !dotted && function == b"transpose".as_slice()
}

/// What is transposed, where an expression is a call of `transpose`.
#[tactic(auto, unfolding(hp_script::specs::Mirror::form_of, hp_script::specs::Mirror::tree_of))]
fn flipped(x: &Expr) -> Option<&Expr>
    ensures { option_map (λ y. tree_of y.now) result ≡ flipped (tree_of x.now) }
{
    let Form::Call(function, dotted, args) = &x.form else {
        return None;
    };
    if !is_transpose(function.bytes.as_slice(), *dotted) {
        return None;
    }
    match one_plain(args.as_slice()) {
        Ok(y) => Some(y),
        Err(_) => None,
    }
}

/// `A * transpose(B)`, of A and B
#[tactic(auto, using(crate::proofs::ArrayForms::slot_forms))]
fn product_flipped_what(
    homes: &Homes<'_>,
    site: Site,
    x: &Expr,
    z: &Expr,
) -> Result<Option<What>, NoMemory>
    ensures { IfOk result (λ made. code_in site.at made ≡ product_flipped homes.now (head_in site) (tree_of x.now) (tree_of z.now)) }
{
    let Some(left) = homes.array_of(x)? else {
        return Ok(None);
    };
    match homes.array_of(z)? {
        Some(right) => Ok(Some(What::ProductT {
            out: homes.out_of(site.id)?,
            left,
            right,
        })),
        None => Ok(None),
    }
}

/// `A * B` of matrices
#[tactic(auto, using(crate::proofs::ArrayForms::slot_forms))]
fn product_plain_what(
    homes: &Homes<'_>,
    site: Site,
    x: &Expr,
    y: &Expr,
) -> Result<Option<What>, NoMemory>
    ensures { IfOk result (λ made. code_in site.at made ≡ product_plain homes.now (head_in site) (tree_of x.now) (tree_of y.now)) }
{
    let Some(left) = homes.array_of(x)? else {
        return Ok(None);
    };
    match homes.array_of(y)? {
        Some(right) => Ok(Some(What::Product {
            out: homes.out_of(site.id)?,
            left,
            right,
        })),
        None => Ok(None),
    }
}

/// `*` of matrices, whose right side may be transposed
#[tactic(auto, using(crate::proofs::ArrayForms::product_is_flipped, crate::proofs::ArrayForms::product_is_plain))]
fn product_what(homes: &Homes<'_>, site: Site, x: &Expr, y: &Expr) -> Result<Option<What>, NoMemory>
    ensures { IfOk result (λ made. code_in site.at made ≡ product_code homes.now (head_in site) (tree_of x.now) (tree_of y.now)) }
{
    match flipped(y) {
        Some(z) => product_flipped_what(homes, site, x, z),
        None => product_plain_what(homes, site, x, y),
    }
}

/// An operator on two words.
fn calculated_what(
    homes: &Homes<'_>,
    site: Site,
    op: BinOp,
    x: &Expr,
    y: &Expr,
) -> Result<Option<What>, NoMemory>
    ensures { IfOk result (λ made. code_in site.at made ≡ calculated_code homes.now (head_in site) op (tree_of x.now) (tree_of y.now)) }
{
    Ok(Some(What::Calc {
        to: homes.word_at(site.id)?,
        op: calc_of(op),
        left: homes.word_of(x)?,
        right: homes.word_of(y)?,
    }))
}

/// `*`, which is on matrices where the left side is one
#[tactic(auto, using(crate::proofs::ArrayForms::product_by_words, crate::proofs::ArrayForms::product_by_arrays))]
fn multiplied_what(
    homes: &Homes<'_>,
    site: Site,
    x: &Expr,
    y: &Expr,
) -> Result<Option<What>, NoMemory>
    ensures { IfOk result (λ made. code_in site.at made ≡ eager_code homes.now (head_in site) Mul false (tree_of x.now) (tree_of y.now)) }
{
    if homes.count_of(x)? == 0 {
        calculated_what(homes, site, BinOp::Mul, x, y)
    } else {
        product_what(homes, site, x, y)
    }
}

/// An operator of which both sides are made before it.
#[tactic(auto, unfolding(crate::specs::Programs::eager_code))]
pub fn eager_what(
    homes: &Homes<'_>,
    site: Site,
    op: BinOp,
    dotted: bool,
    x: &Expr,
    y: &Expr,
) -> Result<Option<What>, NoMemory>
    ensures { IfOk result (λ made. code_in site.at made ≡ eager_code homes.now (head_in site) op dotted (tree_of x.now) (tree_of y.now)) }
{
    if dotted {
        let elem = dotted_elem(homes, site.at, calc_of(op), x, y)?;
        return dotted_what(homes, site, elem, x, y);
    }
    match op {
        BinOp::Mul => multiplied_what(homes, site, x, y),
        _ => calculated_what(homes, site, op, x, y),
    }
}

/// Whether the second side of an operator is made in a branch.
pub fn is_lazy(op: BinOp, dotted: bool) -> bool
    ensures { result ≡ is_lazy op dotted }
{
    if dotted {
        return false;
    }
    match op {
        BinOp::And | BinOp::Or => true,
        _ => false,
    }
}

/// Adds `&&` or `||` behind its first side, with the steps of the second one.
#[tactic(auto, unfolding(hp_flat::specs::FlatCalls::lazy_code, hp_flat::specs::FlatCalls::word_copy, hp_program::specs::Programs::joined))]
pub fn add_lazy(
    steps: &mut Steps,
    homes: &Homes<'_>,
    site: Site,
    op: BinOp,
    x: &Expr,
    y: &Expr,
    second: Steps,
) -> Result<(), NoMemory>
    ensures { OnOk result (program_in steps.new ≡ joined (program_in steps.old) (lazy_code homes.now (head_in site) op (tree_of x.now) (tree_of y.now) (program_in second))) }
{
    let to = homes.word_at(site.id)?;
    let test = homes.word_of(x)?;
    let from = homes.word_of(y)?;
    let mut second = second;
    second.push(
        site.at,
        What::Calc {
            to,
            op: CalcOp::Max,
            left: from,
            right: from,
        },
    )?;
    let mut decided = Steps::new(homes.alloc());
    match op {
        BinOp::And => {
            decided.push(site.at, What::Const { to, value: 0 })?;
            steps.branch(test, second, decided)
        }
        _ => {
            decided.push(site.at, What::Const { to, value: 1 })?;
            steps.branch(test, decided, second)
        }
    }
}

/// `a[i]`, or `a[k]`, where the index is an array
#[tactic(auto, using(crate::proofs::ArrayForms::index_forms, crate::proofs::ArrayForms::slot_forms))]
pub fn index_what(
    homes: &Homes<'_>,
    site: Site,
    x: &Expr,
    i: &Expr,
) -> Result<Option<What>, NoMemory>
    ensures { IfOk result (λ made. code_in site.at made ≡ index_code homes.now (head_in site) (tree_of x.now) (tree_of i.now)) }
{
    let Some(array) = homes.array_of(x)? else {
        return Ok(None);
    };
    match homes.first_of(i)? {
        Some(index) => Ok(Some(What::Pick {
            out: homes.out_of(site.id)?,
            array,
            index,
        })),
        None => Ok(Some(What::At {
            to: homes.word_at(site.id)?,
            array,
            index: homes.word_of(i)?,
        })),
    }
}
