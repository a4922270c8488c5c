// Calls on frames, and on several arrays, as operations of the array IR.

ghost use Rattle.std.specs.Prelude.{◌≡◌, map, IfOk};
ghost use Rattle.hp_script.specs.Mirror.{tree_of, args_of};
ghost use Rattle.hp_meaning.specs.HeldValues.{measured_in};
ghost use Rattle.hp_flat.specs.FlatCalls.{frame_at, measure_at, join_code, group_code, sort_code};
ghost use Rattle.hp_normal.specs.Programs.{code_in, head_in, sides_at, column_for, concat_code, frame_code, read_code, filter_code, stack_code};

use crate::homes::{Homes, Site};
use crate::sides::{all_slots, array_among, slots_among};
use hp_air::what::What;
use hp_meaning::args::{Wanted, column_name, first_plain, measures_in, three_plain};
use hp_script::tree::{Arg, Expr};
use hp_word::place::NoMemory;
use hp_word::sequence::Sequence;
use hp_word::table::{Measure, MeasureKind};

/// `vcat`
#[tactic(auto, using(crate::proofs::ArrayForms::slot_forms))]
pub fn concat_what(homes: &Homes<'_>, site: Site, values: &[u32]) -> Result<Option<What>, NoMemory>
    ensures { IfOk result (λ made. code_in site.at made ≡ concat_code homes.now (head_in site) (sides_at homes.now.known values.now)) }
{
    let Some(left) = array_among(homes, values, 0)? else {
        return Ok(None);
    };
    match array_among(homes, values, 1)? {
        Some(right) => Ok(Some(What::Concat {
            out: homes.out_of(site.id)?,
            left,
            right,
        })),
        None => Ok(None),
    }
}

/// `DataFrame`
pub fn frame_what(homes: &Homes<'_>, site: Site, values: &[u32]) -> Result<Option<What>, NoMemory>
    ensures { IfOk result (λ made. code_in site.at made ≡ frame_code homes.now (head_in site) (sides_at homes.now.known values.now)) }
{
    Ok(Some(What::Frame {
        outs: homes.slots_at(site.id)?,
        ins: all_slots(homes, values)?,
    }))
}

/// `stack`
pub fn stack_what(homes: &Homes<'_>, site: Site, values: &[u32]) -> Result<Option<What>, NoMemory>
    ensures { IfOk result (λ made. code_in site.at made ≡ stack_code homes.now (head_in site) (sides_at homes.now.known values.now)) }
{
    Ok(Some(What::Stack {
        out: homes.out_of(site.id)?,
        ins: all_slots(homes, values)?,
    }))
}

/// `read_csv`
pub fn read_what(homes: &Homes<'_>, site: Site) -> Result<Option<What>, NoMemory>
    ensures { IfOk result (λ made. code_in site.at made ≡ read_code homes.now (head_in site)) }
{
    Ok(Some(What::Read {
        outs: homes.slots_at(site.id)?,
        table: homes.table_of(site.id)?,
    }))
}

/// `filter`
#[tactic(auto, using(crate::proofs::ArrayForms::slot_forms))]
pub fn filter_what(homes: &Homes<'_>, site: Site, values: &[u32]) -> Result<Option<What>, NoMemory>
    ensures { IfOk result (λ made. code_in site.at made ≡ filter_code homes.now (head_in site) (sides_at homes.now.known values.now)) }
{
    match array_among(homes, values, 1)? {
        Some(mask) => Ok(Some(What::Filter {
            outs: homes.slots_at(site.id)?,
            ins: slots_among(homes, values)?,
            mask,
        })),
        None => Ok(None),
    }
}

/// `join`
pub fn join_what(homes: &Homes<'_>, site: Site, args: &[Arg]) -> Result<Option<What>, NoMemory>
    ensures { IfOk result (λ made. code_in site.at made ≡ join_code homes.now (head_in site) (args_of args.now)) }
{
    let Ok((left, right, column)) = three_plain(args) else {
        return Ok(None);
    };
    let Ok(key) = column_name(column) else {
        return Ok(None);
    };
    let key = key.bytes.as_slice();
    Ok(Some(What::Join {
        outs: homes.slots_at(site.id)?,
        lefts: homes.ins_of(left)?,
        left_key: homes.key_of(left, key)?,
        rights: homes.ins_of(right)?,
        right_key: homes.key_of(right, key)?,
    }))
}

/// The position of the column of a measure; a count has none, and 0 stands there.
fn measured_column(
    homes: &Homes<'_>,
    x: &Expr,
    kind: MeasureKind,
    of_it: &[u8],
) -> Result<u32, NoMemory>
    ensures { IfOk result (λ column. column ≡ column_for (frame_at homes.now (tree_of x.now)) kind of_it.now) }
{
    match kind {
        MeasureKind::Count => Ok(0),
        MeasureKind::Sum | MeasureKind::Min | MeasureKind::Max => homes.key_of(x, of_it),
    }
}

/// A measure by the position of its column.
fn measure_at(homes: &Homes<'_>, x: &Expr, wanted: &Wanted<'_>) -> Result<Measure, NoMemory>
    ensures { IfOk result (λ measure. measure ≡ measure_at (frame_at homes.now (tree_of x.now)) (measured_in wanted.now)) }
{
    let column = measured_column(homes, x, wanted.kind, wanted.of_it)?;
    Ok(Measure {
        kind: wanted.kind,
        column,
    })
}

/// The measures of an aggregate of a frame.
fn measures_of(
    homes: &Homes<'_>,
    x: &Expr,
    wanted: &[Wanted<'_>],
) -> Result<Sequence<Measure>, NoMemory>
    ensures { IfOk result (λ measures. measures ≡ map (measure_at (frame_at homes.now (tree_of x.now))) (map measured_in wanted.now)) }
{
    let mut measures = Vec::new(homes.alloc());
    for measure in wanted {
        measures.push(measure_at(homes, x, measure)?)?;
    }
    Ok(Sequence::from_vec(measures))
}

/// `aggregate`. In a script that fits the arguments behind the key are measures, and only want of memory keeps them from
/// being listed.
pub fn group_what(homes: &Homes<'_>, site: Site, args: &[Arg]) -> Result<Option<What>, NoMemory>
    ensures { IfOk result (λ made. code_in site.at made ≡ group_code homes.now (head_in site) (args_of args.now)) }
{
    let Ok((x, rest)) = first_plain(args) else {
        return Ok(None);
    };
    let Ok((column, rest)) = first_plain(rest) else {
        return Ok(None);
    };
    let Ok(key) = column_name(column) else {
        return Ok(None);
    };
    let Ok(wanted) = measures_in(homes.alloc(), rest) else {
        return Err(NoMemory);
    };
    Ok(Some(What::Group {
        outs: homes.slots_at(site.id)?,
        ins: homes.ins_of(x)?,
        key: homes.key_of(x, key.bytes.as_slice())?,
        measures: measures_of(homes, x, wanted.as_slice())?,
    }))
}

/// `sort`
pub fn sort_what(homes: &Homes<'_>, site: Site, args: &[Arg]) -> Result<Option<What>, NoMemory>
    ensures { IfOk result (λ made. code_in site.at made ≡ sort_code homes.now (head_in site) (args_of args.now)) }
{
    let Ok((x, rest)) = first_plain(args) else {
        return Ok(None);
    };
    let Ok((column, _)) = first_plain(rest) else {
        return Ok(None);
    };
    let Ok(key) = column_name(column) else {
        return Ok(None);
    };
    Ok(Some(What::Sort {
        outs: homes.slots_at(site.id)?,
        ins: homes.ins_of(x)?,
        key: homes.key_of(x, key.bytes.as_slice())?,
    }))
}
