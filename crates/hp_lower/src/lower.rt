// From a script to the program of all ranks.

ghost use Rattle.std.specs.Prelude.{◌≡◌, ℕ, ◌≤◌, [], ◌∷◌, ◌++◌, length, replicate, IfOk, IfErr, OnOk, Err};
ghost use Rattle.std.specs.Result.{IsErrAnd};
ghost use Rattle.hp_word.specs.declared.place.Place.{Place};
ghost use Rattle.hp_script.specs.Mirror.{block_of};
ghost use Rattle.hp_meaning.specs.Forms.{ReadsAssigned, built};
ghost use Rattle.hp_lattice.specs.declared.dist.Dist.TheVariants.{Block};
ghost use Rattle.std.specs.Option.{option_copied};
ghost use Rattle.hp_word.specs.declared.elem.Elem.TheViews.{Calc};
ghost use Rattle.hp_word.specs.declared.word.CalcOp.TheVariants.{Add};
ghost use Rattle.hp_lower.specs.Code.{slot_of, names_after, sum_loop, make_loop, lines_code};
ghost use Rattle.hp_lower.specs.Correct.{Runs, TellsNotBuilt, IsNotBuiltAt};
ghost use Rattle.hp_lower.specs.Lowering.{fill_code, total_code, print_code, sum_code, add_code, add_number_code, line_code, assigned_of, names_with};

use hp_meaning::forms::{FormError, lines_of};
use hp_meaning::line::Line;
use hp_script::tree::Script;
use hp_spmd::code::Code;
use hp_spmd::dist::Dist;
use hp_spmd::instr::{CheckRule, Folding, Instr, Loop, Out, Output, Packing, Unpacking};
use hp_word::elem::Elem;
use hp_word::fold::FoldKind;
use hp_word::name::Name;
use hp_word::place::{NoMemory, Place};
use hp_word::sequence::Sequence;
use hp_word::word::CalcOp;
use sqlite_items::Boxed;
use std::alloc::Global;

/// The word that holds the value of an array's elements.
const VALUE: u32 = 0;

/// The word that holds how many elements an array gets.
const COUNT: u32 = 1;

/// The word that holds a sum.
const SUM: u32 = 2;

/// How many words a code has.
const WORDS: u32 = 3;

/// A list of one item.
fn one<T: Drop>(alloc: Global, item: T) -> Result<Sequence<T>, NoMemory>
    ensures { IfOk result (λ items. items ≡ item ∷ []) }
{
    let mut items = Sequence::new(alloc);
    items.push(item)?;
    Ok(items)
}

/// The loop that sums a rank's own part of an array.
fn sum_loop(alloc: Global, slot: u32) -> Result<Loop, NoMemory>
    ensures { IfOk result (λ l. l ≡ sum_loop slot) }
{
    Ok(Loop {
        leader: slot,
        inputs: one(alloc, slot)?,
        halos: Sequence::new(alloc),
        lets: one(alloc, Elem::Input(0))?,
        outs: Sequence::new(alloc),
        folds: one(
            alloc,
            Folding {
                word: SUM,
                kind: FoldKind::Sum,
                value: 0,
            },
        )?,
    })
}

/// Adds the instructions that make an array.
fn push_fill(
    list: &mut Sequence<Instr>,
    slot: u32,
    at: Place,
    value: i64,
    count: i64,
) -> Result<(), NoMemory>
    ensures { OnOk result (list.new ≡ list.old ++ fill_code slot at value count) }
{
    list.push(Instr::Const { to: VALUE, value })?;
    list.push(Instr::Const {
        to: COUNT,
        value: count,
    })?;
    list.push(Instr::Fill {
        to: slot,
        value: VALUE,
        count: COUNT,
        at,
    })?;
    Ok(())
}

/// Adds the exchange that makes the ranks' sums one sum on every rank.
fn push_total(alloc: Global, list: &mut Sequence<Instr>) -> Result<(), NoMemory>
    ensures { OnOk result (list.new ≡ list.old ++ total_code) }
{
    list.push(Instr::Pack(Packing::Words(one(alloc, SUM)?)))?;
    list.push(Instr::Post { root: false })?;
    list.push(Instr::Take { root: false })?;
    list.push(Instr::Unpack(Unpacking::Folds(one(alloc, (SUM, FoldKind::Sum))?)))?;
    Ok(())
}

/// Adds the exchange by which rank 0 prints the sum.
fn push_print(list: &mut Sequence<Instr>) -> Result<(), NoMemory>
    ensures { OnOk result (list.new ≡ list.old ++ print_code) }
{
    list.push(Instr::Pack(Packing::Gather(Output::Word(SUM, false))))?;
    list.push(Instr::Post { root: true })?;
    list.push(Instr::Take { root: true })?;
    list.push(Instr::Write(Output::Word(SUM, false)))?;
    Ok(())
}

/// Adds the instructions that sum an array and print the sum.
fn push_sum(alloc: Global, list: &mut Sequence<Instr>, slot: u32) -> Result<(), NoMemory>
    ensures { OnOk result (list.new ≡ list.old ++ sum_code slot) }
{
    list.push(Instr::Loop(sum_loop(alloc, slot)?))?;
    push_total(alloc, list)?;
    push_print(list)
}

/// An element at a place that adds two others.
fn sum_elem(alloc: Global, at: Place, left: Elem, right: Elem) -> Result<Elem, NoMemory>
    ensures { IfOk result (λ elem. elem ≡ Calc Add at left right) }
{
    let left = Boxed::new(alloc, left)?;
    let right = Boxed::new(alloc, right)?;
    Ok(Elem::Calc(CalcOp::Add, at, left, right))
}

/// The loop that makes the array of a slot of one element's values over the leader.
fn make_loop(
    alloc: Global,
    leader: u32,
    inputs: Sequence<u32>,
    elem: Elem,
    slot: u32,
) -> Result<Loop, NoMemory>
    ensures { IfOk result (λ l. l ≡ make_loop leader inputs elem slot) }
{
    Ok(Loop {
        leader,
        inputs,
        halos: Sequence::new(alloc),
        lets: one(alloc, elem)?,
        outs: one(
            alloc,
            Out {
                array: slot,
                value: 0,
            },
        )?,
        folds: Sequence::new(alloc),
    })
}

/// A list of two numbers.
fn two(alloc: Global, first: u32, second: u32) -> Result<Sequence<u32>, NoMemory>
    ensures { IfOk result (λ items. items ≡ first ∷ second ∷ []) }
{
    let mut items = one(alloc, first)?;
    items.push(second)?;
    Ok(items)
}

/// Adds the instructions that add the arrays of two slots into a third.
fn push_add(
    alloc: Global,
    list: &mut Sequence<Instr>,
    slot: u32,
    at: Place,
    left: u32,
    right: u32,
) -> Result<(), NoMemory>
    ensures { OnOk result (list.new ≡ list.old ++ add_code slot at left right) }
{
    list.push(Instr::Check {
        arrays: two(alloc, left, right)?,
        rule: CheckRule::Equal,
        at,
    })?;
    let elem = sum_elem(alloc, at, Elem::Input(0), Elem::Input(1))?;
    let inputs = two(alloc, left, right)?;
    list.push(Instr::Loop(make_loop(alloc, left, inputs, elem, slot)?))?;
    Ok(())
}

/// Adds the instruction that adds a number to the array of a slot, into another.
fn push_add_number(
    alloc: Global,
    list: &mut Sequence<Instr>,
    slot: u32,
    at: Place,
    left: u32,
    number: i64,
) -> Result<(), NoMemory>
    ensures { OnOk result (list.new ≡ list.old ++ add_number_code slot at left number) }
{
    let elem = sum_elem(alloc, at, Elem::Input(0), Elem::Number(number))?;
    let inputs = one(alloc, left)?;
    list.push(Instr::Loop(make_loop(alloc, left, inputs, elem, slot)?))?;
    Ok(())
}

/// The name that a line assigns.
fn assigned(line: &Line) -> Option<&Name>
    ensures { option_copied result ≡ assigned_of line.now }
{
    match line {
        Line::Fill(name, ..) => Some(name),
        Line::PrintSum(_) => None,
        Line::AddArrays(name, ..) => Some(name),
        Line::AddNumber(name, ..) => Some(name),
    }
}

/// The slot of a name after some lines: the newest assignment counts.
fn slot_before(lines: &[Line], name: &[u8]) -> u32
    requires { length lines.now ≤ 65536 }
    ensures { result ≡ slot_of (names_after [] lines.now) name.now }
{
    let mut slot = 0;
    let mut arrays = 0u32;
    for line in lines {
        if let Some(other) = assigned(line) {
            if other.bytes.as_slice() == name {
                slot = arrays;
            }
            arrays += 1;
        }
    }
    slot
}

/// Adds the instructions of a line and its array, after the lines before it.
#[tactic(auto, using(crate::proofs::LowerCode::blocks_more))]
fn push_line(
    alloc: Global,
    list: &mut Sequence<Instr>,
    arrays: &mut Sequence<Dist>,
    before: &[Line],
    line: &Line,
) -> Result<(), NoMemory>
    requires few { length before.now ≤ 65536 }
    requires blocks { arrays.old ≡ replicate (length (names_after [] before.now)) Block }
    ensures list { OnOk result (list.new ≡ list.old ++ line_code (names_after [] before.now) line.now) }
    ensures arrays { OnOk result (arrays.new ≡ replicate (length (names_with (names_after [] before.now) line.now)) Block) }
{
    let slot = arrays.len() as u32;
    match line {
        Line::Fill(_, at, value, count) => {
            push_fill(list, slot, *at, *value, *count)?;
            arrays.push(Dist::Block)?;
            Ok(())
        }
        Line::PrintSum(name) => {
            let from = slot_before(before, name.bytes.as_slice());
            push_sum(alloc, list, from)
        }
        Line::AddArrays(_, at, left, right) => {
            let left = slot_before(before, left.bytes.as_slice());
            let right = slot_before(before, right.bytes.as_slice());
            push_add(alloc, list, slot, *at, left, right)?;
            arrays.push(Dist::Block)?;
            Ok(())
        }
        Line::AddNumber(_, at, left, number) => {
            let left = slot_before(before, left.bytes.as_slice());
            push_add_number(alloc, list, slot, *at, left, *number)?;
            arrays.push(Dist::Block)?;
            Ok(())
        }
    }
}

/// The code of lines.
fn code_of(alloc: Global, lines: &[Line]) -> Result<Code, NoMemory>
    requires reads { ReadsAssigned [] lines.now }
    requires few { length lines.now ≤ 65536 }
    ensures list { IfOk result (λ code. code.list ≡ lines_code [] lines.now) }
    ensures words { IfOk result (λ code. code.words ≡ 3) }
    ensures arrays { IfOk result (λ code. code.arrays ≡ replicate (length (names_after [] lines.now)) Block) }
    ensures loose { IfOk result (λ code. code.loose ≡ 0) }
{
    let mut list = Sequence::new(alloc);
    let mut arrays = Sequence::new(alloc);
    for (i, line) in lines.iter().enumerate() {
        push_line(alloc, &mut list, &mut arrays, &lines[..i], line)?;
    }
    list.push(Instr::Halt)?;
    Ok(Code {
        list,
        words: WORDS,
        arrays,
        loose: 0,
    })
}

/// The program of all ranks that does what a script means.
///
/// Errors: `NotBuilt` with the place of the first statement that is of no form that is built, or that reads a name
/// which nothing before it assigns; `NoMemory` where memory was refused.
pub fn lower(alloc: Global, script: &Script) -> Result<Code, FormError>
    // On any tables, with 1 to 32 ranks and within any limit, the ranks' run agrees with the script's meaning, and
    // each rank's arrays stay shared; messages are packed, sent, taken and read in this order alone.
    ensures runs { IfOk result (λ code. Runs script.now.body code) }
    ensures refused { IfErr result (TellsNotBuilt script.now.body) }
    ensures exact { (at : Place) → built [] (block_of script.now.body) ≡ Err at → IsErrAnd result (IsNotBuiltAt at) }
{
    let lines = match lines_of(alloc, script) {
        Ok(lines) => lines,
        Err(error) => return Err(error),
    };
    match code_of(alloc, lines.list.as_slice()) {
        Ok(code) => Ok(code),
        Err(NoMemory) => Err(FormError::NoMemory),
    }
}
