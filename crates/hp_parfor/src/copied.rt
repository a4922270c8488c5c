// Copies of operations.

ghost use Rattle.std.specs.Prelude.{◌≡◌, IfOk, IsTrue};
ghost use Rattle.hp_air.specs.declared.what.What.TheVariants as what;
ghost use Rattle.hp_parfor.specs.KeptParts.{is_whole};

use hp_air::what::What;
use hp_word::elem::Elem;
use hp_word::name::{Name, copied_name};
use hp_word::place::NoMemory;
use hp_word::sequence::Sequence;
use hp_word::table::Measure;
use hp_word::word::CalcOp;
use sqlite_items::Boxed;
use std::alloc::Global;

/// A copy of an element.
pub fn copied_elem(alloc: Global, elem: &Elem) -> Result<Elem, NoMemory>
    ensures { IfOk result (λ copy. copy ≡ elem.now) }
{
    match elem {
        Elem::Number(value) => Ok(Elem::Number(*value)),
        Elem::Word(word) => Ok(Elem::Word(*word)),
        Elem::Input(input) => Ok(Elem::Input(*input)),
        Elem::Near(halo, by) => Ok(Elem::Near(*halo, *by)),
        Elem::Earlier(before) => Ok(Elem::Earlier(*before)),
        Elem::Calc(op, at, a, b) => {
            let a = Boxed::new(alloc, copied_elem(alloc, a.get())?)?;
            let b = Boxed::new(alloc, copied_elem(alloc, b.get())?)?;
            Ok(Elem::Calc(*op, *at, a, b))
        }
        Elem::Both(a, b) => {
            let a = Boxed::new(alloc, copied_elem(alloc, a.get())?)?;
            let b = Boxed::new(alloc, copied_elem(alloc, b.get())?)?;
            Ok(Elem::Both(a, b))
        }
        Elem::Either(a, b) => {
            let a = Boxed::new(alloc, copied_elem(alloc, a.get())?)?;
            let b = Boxed::new(alloc, copied_elem(alloc, b.get())?)?;
            Ok(Elem::Either(a, b))
        }
    }
}

/// A copy of a list of slots.
pub fn copied_slots(alloc: Global, slots: &Sequence<u32>) -> Result<Sequence<u32>, NoMemory>
    ensures { IfOk result (λ copy. copy ≡ slots.now) }
{
    Ok(Sequence::from_slice(alloc, slots.as_slice())?)
}

/// A copy of measures.
fn copied_measures(
    alloc: Global,
    measures: &Sequence<Measure>,
) -> Result<Sequence<Measure>, NoMemory>
    ensures { IfOk result (λ copy. copy ≡ measures.now) }
{
    Ok(Sequence::from_slice(alloc, measures.as_slice())?)
}

/// A copy of names.
fn copied_names(alloc: Global, names: &Sequence<Name>) -> Result<Sequence<Name>, NoMemory>
    ensures { IfOk result (λ copy. copy ≡ names.now) }
{
    let mut copy = Sequence::new(alloc);
    for name in names.as_slice() {
        copy.push(copied_name(alloc, name)?)?;
    }
    Ok(copy)
}

/// A copy of a read.
fn read(alloc: Global, outs: &Sequence<u32>, table: u32) -> Result<What, NoMemory>
    ensures { IfOk result (λ copy. copy ≡ what.Read outs.now table) }
{
    let outs = copied_slots(alloc, outs)?;
    Ok(What::Read { outs, table })
}

/// A copy of a copy.
fn copy(alloc: Global, outs: &Sequence<u32>, ins: &Sequence<u32>) -> Result<What, NoMemory>
    ensures { IfOk result (λ copy. copy ≡ what.Copy outs.now ins.now) }
{
    let outs = copied_slots(alloc, outs)?;
    let ins = copied_slots(alloc, ins)?;
    Ok(What::Copy { outs, ins })
}

/// A copy of a filter.
fn filter(
    alloc: Global,
    outs: &Sequence<u32>,
    ins: &Sequence<u32>,
    mask: u32,
) -> Result<What, NoMemory>
    ensures { IfOk result (λ copy. copy ≡ what.Filter outs.now ins.now mask) }
{
    let outs = copied_slots(alloc, outs)?;
    let ins = copied_slots(alloc, ins)?;
    Ok(What::Filter { outs, ins, mask })
}

/// A copy of a join, with its keys.
fn join(
    alloc: Global,
    outs: &Sequence<u32>,
    lefts: &Sequence<u32>,
    left_key: u32,
    rights: &Sequence<u32>,
    right_key: u32,
) -> Result<What, NoMemory>
    ensures { IfOk result (λ copy. copy ≡ what.Join outs.now lefts.now left_key rights.now right_key) }
{
    let outs = copied_slots(alloc, outs)?;
    let lefts = copied_slots(alloc, lefts)?;
    let rights = copied_slots(alloc, rights)?;
    Ok(What::Join {
        outs,
        lefts,
        left_key,
        rights,
        right_key,
    })
}

/// A copy of an aggregate.
fn group(
    alloc: Global,
    outs: &Sequence<u32>,
    ins: &Sequence<u32>,
    key: u32,
    measures: &Sequence<Measure>,
) -> Result<What, NoMemory>
    ensures { IfOk result (λ copy. copy ≡ what.Group outs.now ins.now key measures.now) }
{
    let outs = copied_slots(alloc, outs)?;
    let ins = copied_slots(alloc, ins)?;
    let measures = copied_measures(alloc, measures)?;
    Ok(What::Group {
        outs,
        ins,
        key,
        measures,
    })
}

/// A copy of a sort.
fn sort(
    alloc: Global,
    outs: &Sequence<u32>,
    ins: &Sequence<u32>,
    key: u32,
) -> Result<What, NoMemory>
    ensures { IfOk result (λ copy. copy ≡ what.Sort outs.now ins.now key) }
{
    let outs = copied_slots(alloc, outs)?;
    let ins = copied_slots(alloc, ins)?;
    Ok(What::Sort { outs, ins, key })
}

/// A copy of a frame.
fn frame(alloc: Global, outs: &Sequence<u32>, ins: &Sequence<u32>) -> Result<What, NoMemory>
    ensures { IfOk result (λ copy. copy ≡ what.Frame outs.now ins.now) }
{
    let outs = copied_slots(alloc, outs)?;
    let ins = copied_slots(alloc, ins)?;
    Ok(What::Frame { outs, ins })
}

/// A copy of a stack.
fn stack(alloc: Global, out: u32, ins: &Sequence<u32>) -> Result<What, NoMemory>
    ensures { IfOk result (λ copy. copy ≡ what.Stack out ins.now) }
{
    let ins = copied_slots(alloc, ins)?;
    Ok(What::Stack { out, ins })
}

/// A copy of an export.
fn export(alloc: Global, arrays: &Sequence<u32>, names: &Sequence<Name>) -> Result<What, NoMemory>
    ensures { IfOk result (λ copy. copy ≡ what.Export arrays.now names.now) }
{
    let arrays = copied_slots(alloc, arrays)?;
    let names = copied_names(alloc, names)?;
    Ok(What::Export { arrays, names })
}

/// An operation on two words.
fn calc(to: u32, op: CalcOp, left: u32, right: u32) -> What
    ensures { result ≡ what.Calc to op left right }
{
    What::Calc {
        to,
        op,
        left,
        right,
    }
}

/// A copy of an operation that is no loop.
pub fn copied_what(alloc: Global, what: &What) -> Result<What, NoMemory>
    requires whole { IsTrue (is_whole what.now) }
    ensures { IfOk result (λ copy. copy ≡ what.now) }
{
    Ok(match what {
        &What::Const { to, value } => What::Const { to, value },
        &What::Calc {
            to,
            op,
            left,
            right,
        } => calc(to, op, left, right),
        &What::Length { to, array } => What::Length { to, array },
        &What::Fill { out, value, count } => What::Fill { out, value, count },
        &What::Range { out, first, last } => What::Range { out, first, last },
        What::Read { outs, table } => read(alloc, outs, *table)?,
        What::Copy { outs, ins } => copy(alloc, outs, ins)?,
        &What::Scan { out, array } => What::Scan { out, array },
        What::Filter { outs, ins, mask } => filter(alloc, outs, ins, *mask)?,
        What::Join {
            outs,
            lefts,
            left_key,
            rights,
            right_key,
        } => join(alloc, outs, lefts, *left_key, rights, *right_key)?,
        What::Group {
            outs,
            ins,
            key,
            measures,
        } => group(alloc, outs, ins, *key, measures)?,
        &What::Concat { out, left, right } => What::Concat { out, left, right },
        What::Sort { outs, ins, key } => sort(alloc, outs, ins, *key)?,
        &What::At { to, array, index } => What::At { to, array, index },
        &What::Pick { out, array, index } => What::Pick { out, array, index },
        What::Frame { outs, ins } => frame(alloc, outs, ins)?,
        What::Stack { out, ins } => stack(alloc, *out, ins)?,
        &What::Row { out, matrix, index } => What::Row { out, matrix, index },
        &What::Product { out, left, right } => What::Product { out, left, right },
        &What::ProductT { out, left, right } => What::ProductT { out, left, right },
        &What::PrintWord { word, truth } => What::PrintWord { word, truth },
        &What::PrintList { array, truth } => What::PrintList { array, truth },
        What::Export { arrays, names } => export(alloc, arrays, names)?,
        What::Map { .. } | What::Reduce { .. } | What::Stencil { .. } => unreachable!(),
    })
}
