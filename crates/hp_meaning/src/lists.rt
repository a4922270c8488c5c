// The constructs of arrays.

ghost use Rattle.std.specs.Prelude.{◌≡◌, ◌≤◌, ◌+ℤ◌, ◌≤ℤ◌, ℤ, pos, length, replicate, filter, IfOk};
ghost use Rattle.hp_word.specs.Lengths.{longest};
ghost use Rattle.hp_word.specs.ListRules as lists;
ghost use Rattle.hp_word.specs.ListRules.{range_count, span, range_of, appended, folded_list, prefix_sums, element_at, elements_at};
ghost use Rattle.hp_word.specs.Words.{is_true};
ghost use Rattle.hp_meaning.specs.HeldValues.{looked, cells_in};
ghost use Rattle.hp_meaning.specs.ListRules.{filled, collected, concatenated, length_value, fold_kind, folded, counted, summed, indexed_by, indexed};
ghost use Rattle.hp_meaning.specs.Outcomes.{Gives, Tells, told};

use crate::held::{Look, Operand};
use crate::seen::Stop;
use crate::value::{Kind, Value};
use hp_word::fold::{FoldKind, fold_items};
use hp_word::lengths::{LONGEST, length_of};
use hp_word::place::{NoMemory, Place, Trap, TrapKind};
use hp_word::sequence::Sequence;
use hp_word::word::{add, is_true};
use std::alloc::Global;

/// A count as a number of the script.
#[tactic(auto, unfolding(crate::specs::Outcomes::halted))]
pub fn number_of(count: usize) -> Result<i64, Stop>
    ensures { Tells (Gives (pos count)) result }
{
    let Ok(number) = i64::try_from(count) else {
        return Err(Stop::NoMemory);
    };
    Ok(number)
}

/// A word so many times.
fn repeated(alloc: Global, x: i64, count: usize) -> Result<Sequence<i64>, NoMemory>
    ensures { IfOk result (λ made. made ≡ replicate count x) }
{
    let mut made = Sequence::new(alloc);
    for _i in 0..count {
        made.push(x)?;
    }
    Ok(made)
}

/// A word as often as another says.
#[tactic(auto, unfolding(hp_word::specs::ListRules::filled, crate::specs::Outcomes::halted))]
fn filled_words(alloc: Global, at: Place, count: i64, x: i64) -> Result<Sequence<i64>, Stop>
    ensures { Tells (told (lists.filled at count x)) result }
{
    match length_of(at, count) {
        Ok(length) => Ok(repeated(alloc, x, length as usize)?),
        Err(trap) => Err(Stop::Trap(trap)),
    }
}

/// `fill(v, k)`
#[tactic(auto, unfolding(crate::specs::ListRules::filled, crate::specs::Outcomes::halted))]
pub fn filled(alloc: Global, at: Place, a: Look, b: Look) -> Result<Value, Stop>
    ensures { Tells (filled at (looked a.entry) (looked b.entry)) result }
{
    let (kind, x) = a.word()?;
    let count = b.word_of(Kind::Number)?;
    Ok(Value::List(kind, filled_words(alloc, at, count, x)?))
}

/// How many numbers there are from one up to another.
#[tactic(auto, unfolding(hp_word::specs::ListRules::range_count))]
fn range_count(at: Place, first: i64, last: i64) -> Result<u64, Trap>
    ensures { result ≡ range_count at first last }
{
    if last < first {
        return Ok(0);
    }
    let too_long = Trap {
        at,
        kind: TrapKind::TooLong,
    };
    let Some(more) = last.checked_sub(first) else {
        return Err(too_long);
    };
    let more = more as u64;
    if more >= LONGEST {
        return Err(too_long);
    }
    Ok(more + 1)
}

/// So many numbers from one on, the last of which is a word.
#[tactic(auto, unfolding(hp_word::specs::ListRules::span))]
fn span(alloc: Global, first: i64, count: u64) -> Result<Sequence<i64>, NoMemory>
    requires few { count ≤ longest }
    requires fits { (first +ℤ pos count) ≤ℤ pos 9223372036854775808 }
    ensures { IfOk result (λ made. made ≡ span first count) }
{
    let mut made = Sequence::new(alloc);
    for i in 0..count {
        made.push(first + i as i64)?;
    }
    Ok(made)
}

/// The numbers from one up to another.
#[tactic(auto, unfolding(hp_word::specs::ListRules::range_of, crate::specs::Outcomes::halted))]
fn range_words(alloc: Global, at: Place, first: i64, last: i64) -> Result<Sequence<i64>, Stop>
    ensures { Tells (told (range_of at first last)) result }
{
    match range_count(at, first, last) {
        Ok(count) => Ok(span(alloc, first, count)?),
        Err(trap) => Err(Stop::Trap(trap)),
    }
}

/// `collect(a:b)`
#[tactic(auto, unfolding(crate::specs::ListRules::collected, crate::specs::Outcomes::halted))]
pub fn collected(alloc: Global, at: Place, a: Look, b: Look) -> Result<Value, Stop>
    ensures { Tells (collected at (looked a.entry) (looked b.entry)) result }
{
    let first = a.word_of(Kind::Number)?;
    let last = b.word_of(Kind::Number)?;
    Ok(Value::List(Kind::Number, range_words(alloc, at, first, last)?))
}

/// One array behind another.
#[tactic(auto, unfolding(hp_word::specs::ListRules::appended, crate::specs::Outcomes::halted))]
fn appended(alloc: Global, at: Place, xs: &[i64], ys: &[i64]) -> Result<Sequence<i64>, Stop>
    ensures { Tells (told (appended at xs.now ys.now)) result }
{
    let most = LONGEST as usize;
    if xs.len() > most || ys.len() > most - xs.len() {
        return Err(Stop::trap(at, TrapKind::TooLong));
    }
    let mut made = Vec::from_slice(alloc, xs)?;
    made.extend_from_slice(ys)?;
    Ok(Sequence::from_vec(made))
}

/// `vcat(a, b)`
#[tactic(auto, unfolding(crate::specs::ListRules::concatenated, crate::specs::Outcomes::halted))]
pub fn concatenated(alloc: Global, at: Place, a: Look, b: Look) -> Result<Value, Stop>
    ensures { Tells (concatenated at (looked a.entry) (looked b.entry)) result }
{
    let (kind, xs) = a.list()?;
    let ys = b.list_of(kind)?;
    Ok(Value::List(kind, appended(alloc, at, xs, ys)?))
}

/// `length(a)`
#[tactic(auto, unfolding(crate::specs::ListRules::length_value, crate::specs::Outcomes::halted))]
pub fn length_value(a: Look) -> Result<Value, Stop>
    ensures { Tells (length_value (looked a.entry)) result }
{
    let (_, xs) = a.list()?;
    Ok(Value::Word(Kind::Number, number_of(xs.len())?))
}

/// What a fold is for, and what it gives.
fn fold_kind(kind: FoldKind) -> Kind
    ensures { result ≡ fold_kind kind }
{
    match kind {
        FoldKind::Any | FoldKind::All => Kind::Truth,
        _ => Kind::Number,
    }
}

/// The fold of an array.
#[tactic(auto, unfolding(hp_word::specs::ListRules::folded_list, crate::specs::Outcomes::halted))]
fn folded_list(kind: FoldKind, at: Place, xs: &[i64]) -> Result<i64, Stop>
    ensures { Tells (told (folded_list kind at xs.now)) result }
{
    match kind {
        FoldKind::Min | FoldKind::Max => {
            if xs.is_empty() {
                return Err(Stop::trap(at, TrapKind::Empty));
            }
            Ok(fold_items(kind, xs))
        }
        _ => Ok(fold_items(kind, xs)),
    }
}

/// `sum(a)`, `prod(a)`, `minimum(a)`, `maximum(a)`, `any(a)` or `all(a)`
#[tactic(auto, unfolding(crate::specs::ListRules::folded, crate::specs::Outcomes::halted))]
pub fn folded(kind: FoldKind, at: Place, a: Look) -> Result<Value, Stop>
    ensures { Tells (folded kind at (looked a.entry)) result }
{
    let of_it = fold_kind(kind);
    let xs = a.list_of(of_it)?;
    Ok(Value::Word(of_it, folded_list(kind, at, xs)?))
}

/// How many words are true.
fn count_true(xs: &[i64]) -> usize
    ensures { result ≡ length (filter is_true xs.now) }
{
    let mut count = 0;
    for x in xs {
        if is_true(*x) {
            count += 1;
        }
    }
    count
}

/// `count(a)`
#[tactic(auto, unfolding(crate::specs::ListRules::counted, crate::specs::Outcomes::halted))]
pub fn counted(a: Look) -> Result<Value, Stop>
    ensures { Tells (counted (looked a.entry)) result }
{
    let xs = a.list_of(Kind::Truth)?;
    Ok(Value::Word(Kind::Number, number_of(count_true(xs))?))
}

/// The wrapped sums of the words up to each one.
#[tactic(auto, unfolding(hp_word::specs::ListRules::sums_after))]
fn prefix_sums(alloc: Global, xs: &[i64]) -> Result<Sequence<i64>, NoMemory>
    ensures { IfOk result (λ made. made ≡ prefix_sums xs.now) }
{
    let mut made = Sequence::new(alloc);
    let mut total = 0;
    for x in xs {
        total = add(total, *x);
        made.push(total)?;
    }
    Ok(made)
}

/// `cumsum(a)`
#[tactic(auto, unfolding(crate::specs::ListRules::summed, crate::specs::Outcomes::halted))]
pub fn summed(alloc: Global, a: Look) -> Result<Value, Stop>
    ensures { Tells (summed (looked a.entry)) result }
{
    let xs = a.list_of(Kind::Number)?;
    Ok(Value::List(Kind::Number, prefix_sums(alloc, xs)?))
}

/// The element at a position from 1.
#[tactic(auto, unfolding(hp_word::specs::ListRules::element_at, crate::specs::Outcomes::halted))]
fn element_at(at: Place, xs: &[i64], i: i64) -> Result<i64, Stop>
    ensures { Tells (told (element_at at xs.now i)) result }
{
    if i < 1 {
        return Err(Stop::trap(at, TrapKind::Index));
    }
    let place = (i - 1) as usize;
    if place >= xs.len() {
        return Err(Stop::trap(at, TrapKind::Index));
    }
    Ok(xs[place])
}

/// The elements at these positions, from the first on.
#[tactic(auto, unfolding(hp_word::specs::ListRules::elements_at, crate::specs::Outcomes::halted))]
fn elements_at(
    alloc: Global,
    at: Place,
    xs: &[i64],
    positions: &[i64],
) -> Result<Sequence<i64>, Stop>
    ensures { Tells (told (elements_at at xs.now positions.now)) result }
{
    let mut made = Sequence::new(alloc);
    for i in positions {
        made.push(element_at(at, xs, *i)?)?;
    }
    Ok(made)
}

/// An element, or several.
#[tactic(auto, unfolding(crate::specs::ListRules::indexed_by, crate::specs::Outcomes::halted))]
fn indexed_by(
    alloc: Global,
    at: Place,
    kind: Kind,
    xs: &[i64],
    positions: Operand,
) -> Result<Value, Stop>
    ensures { Tells (indexed_by at kind xs.now (cells_in positions.entry)) result }
{
    match positions {
        Operand::One(i) => {
            let x = element_at(at, xs, i)?;
            Ok(Value::Word(kind, x))
        }
        Operand::Many(places) => {
            let made = elements_at(alloc, at, xs, places)?;
            Ok(Value::List(kind, made))
        }
    }
}

/// `a[i]` and `a[k]`
#[tactic(auto, unfolding(crate::specs::ListRules::indexed, crate::specs::Outcomes::halted))]
pub fn indexed(alloc: Global, at: Place, a: Look, b: Look) -> Result<Value, Stop>
    ensures { Tells (indexed at (looked a.entry) (looked b.entry)) result }
{
    let (kind, xs) = a.list()?;
    let positions = b.cells(Kind::Number)?;
    indexed_by(alloc, at, kind, xs, positions)
}
