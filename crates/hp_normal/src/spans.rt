// Slots that stand side by side, and places in lists.

ghost use Rattle.std.specs.Prelude.{◌≡◌, List, ◌∷◌, [], ◌++◌, ◌+◌, IfOk, OnOk, length, None, Some, position, bytes_eq, slice_get, slice_index_or};
ghost use Rattle.std.specs.Option.{option_copied, option_map};
ghost use Rattle.hp_air.specs.Unknowns.{Unknown, width, columns_of};
ghost use Rattle.hp_normal.specs.HomesHeld.{firsts, widths};
ghost use Rattle.hp_normal.specs.PlacesFound.{columns_in, column_place};
ghost use Rattle.hp_normal.specs.Programs.{only_of, first_of, slots_from, slots_there};

use hp_script::columns::ColumnName;
use hp_script::typed::{Shape, Var};
use hp_word::name::{Name, copied_name};
use hp_word::place::{NoMemory, NodeId};
use hp_word::sequence::Sequence;
use std::alloc::Global;

/// Slots that stand side by side: those of one value, from the first on.
#[derive(Clone, Copy)]
pub struct Span {
    pub first: u32,
    pub count: u32,
}

/// A count as a number of the program.
pub fn number_of(count: usize) -> Result<u32, NoMemory>
    ensures { IfOk result (λ number. number ≡ count) }
{
    match u32::try_from(count) {
        Ok(number) => Ok(number),
        Err(_) => Err(NoMemory),
    }
}

/// So many more than a number of the program.
pub fn behind(first: u32, count: u32) -> Result<u32, NoMemory>
    ensures { IfOk result (λ number. number ≡ first + count) }
{
    match first.checked_add(count) {
        Some(number) => Ok(number),
        None => Err(NoMemory),
    }
}

/// The position of a name among the names of columns.
fn column_place(columns: &[ColumnName], name: &[u8]) -> Option<usize>
    ensures { result ≡ position (λ column. bytes_eq name.now column.bytes) columns.now }
{
    columns
        .iter()
        .position(|column| name == column.name().bytes.as_slice())
}

/// The position of a column of a value, where it is a frame that has it.
pub fn column_among(shape: Option<&Shape>, name: &[u8]) -> Option<usize>
    ensures { result ≡ column_place (option_copied shape.entry) name.now }
{
    match shape {
        Some(shape) => match shape {
            Shape::Frame(columns) => column_place(columns.as_slice(), name),
            Shape::Int | Shape::Bool | Shape::Ints | Shape::Bools | Shape::Matrix => None,
        },
        None => None,
    }
}

/// How many columns a value has, where it is a frame.
pub fn column_count(shape: Option<&Shape>) -> usize
    ensures { result ≡ length (columns_in (option_copied shape.entry)) }
{
    match shape {
        Some(shape) => match shape {
            Shape::Frame(columns) => columns.as_slice().len(),
            Shape::Int | Shape::Bool | Shape::Ints | Shape::Bools | Shape::Matrix => 0,
        },
        None => 0,
    }
}

/// Copies of the names of columns.
fn copied_names(alloc: Global, columns: &[ColumnName]) -> Result<Sequence<Name>, NoMemory>
    ensures { IfOk result (λ names. names ≡ columns.now) }
{
    let mut names = Sequence::new(alloc);
    for column in columns {
        names.push(copied_name(alloc, column.name())?)?;
    }
    Ok(names)
}

/// The names of the columns of a frame.
pub fn names_among(alloc: Global, shape: Option<&Shape>) -> Result<Sequence<Name>, NoMemory>
    ensures { IfOk result (λ names. (us : List Unknown) → names ≡ (columns_of (option_copied shape.entry) us).names) }
{
    match shape {
        Some(shape) => match shape {
            Shape::Frame(columns) => copied_names(alloc, columns.as_slice()),
            Shape::Int | Shape::Bool | Shape::Ints | Shape::Bools | Shape::Matrix => {
                Ok(Sequence::new(alloc))
            }
        },
        None => Ok(Sequence::new(alloc)),
    }
}

/// How many arrays a value of a type is.
pub fn width_of(shape: Option<&Shape>) -> usize
    ensures { result ≡ width (option_copied shape.entry) }
{
    match shape {
        Some(shape) => match shape {
            Shape::Int | Shape::Bool => 0,
            Shape::Ints | Shape::Bools | Shape::Matrix => 1,
            Shape::Frame(columns) => columns.as_slice().len(),
        },
        None => 0,
    }
}

/// The type of the expression with this number, where it has a value.
pub fn shape_in(shapes: &[Option<Shape>], id: NodeId) -> Option<&Shape>
    ensures { option_copied result ≡ slice_index_or shapes.now id.0 None }
{
    match shapes.get(id.0 as usize) {
        Some(Some(shape)) => Some(shape),
        _ => None,
    }
}

/// The type of the variable at a place.
pub fn shape_of(vars: &[Var], place: usize) -> Option<&Shape>
    ensures { option_copied result ≡ option_map (λ v. v.shape) (slice_get vars.now place) }
{
    match vars.get(place) {
        Some(var) => Some(&var.shape),
        None => None,
    }
}

/// So many slots from the one at a place of a list on.
pub fn span_from(slots: &[u32], place: usize, count: usize) -> Result<Span, NoMemory>
    ensures first { IfOk result (λ span. span.first ≡ slice_index_or slots.now place 0) }
    ensures count { IfOk result (λ span. span.count ≡ count) }
{
    let count = number_of(count)?;
    match slots.get(place) {
        Some(first) => Ok(Span {
            first: *first,
            count,
        }),
        None => Ok(Span { first: 0, count }),
    }
}

/// The slot, where it is only one.
#[tactic(auto, using(crate::proofs::SpanLemmas::only_one))]
pub fn array_in(span: Span) -> Option<u32>
    ensures { result ≡ only_of (slots_from span) }
{
    if span.count == 1 {
        Some(span.first)
    } else {
        None
    }
}

/// The first slot, where there is one.
#[tactic(auto, using(crate::proofs::SpanLemmas::first_some))]
pub fn first_in(span: Span) -> Option<u32>
    ensures { result ≡ first_of (slots_from span) }
{
    if span.count == 0 {
        None
    } else {
        Some(span.first)
    }
}

/// The slots as a list.
#[tactic(auto, using(crate::proofs::SpanLemmas::one_more_slot))]
pub fn slots_in_span(alloc: Global, span: Span) -> Result<Sequence<u32>, NoMemory>
    ensures { IfOk result (λ slots. slots ≡ slots_from span) }
{
    let mut slots = Vec::new(alloc);
    for column in 0..span.count {
        slots.push(behind(span.first, column)?)?;
    }
    Ok(Sequence::from_vec(slots))
}

/// The first slot of each variable and of each expression, and how many slots they have.
pub fn first_slots(
    alloc: Global,
    shapes: &[Option<Shape>],
    vars: &[Var],
) -> Result<Vec<u32>, NoMemory>
    ensures { IfOk result (λ slots. slots.items ≡ firsts 0 (widths shapes.now vars.now)) }
{
    let mut slots = Vec::new(alloc);
    let mut next = 0;
    for var in vars {
        next = with_next(&mut slots, next, width_of(Some(&var.shape)))?;
    }
    for shape in shapes {
        next = with_next(&mut slots, next, width_of(shape.as_ref()))?;
    }
    slots.push(next)?;
    Ok(slots)
}

/// Adds the first slot of a value, and gives the one behind it.
fn with_next(slots: &mut Vec<u32>, next: u32, width: usize) -> Result<u32, NoMemory>
    ensures behind { IfOk result (λ last. last ≡ next + width) }
    ensures added { OnOk result (slots.new.items ≡ slots.old.items ++ next ∷ []) }
{
    let last = behind(next, number_of(width)?)?;
    slots.push(next)?;
    Ok(last)
}

/// The slot at a place of some; 0 where there is none.
#[tactic(auto, using(crate::proofs::SpanLemmas::slot_within, crate::proofs::SpanLemmas::slot_behind))]
fn slot_at(span: Span, place: usize) -> Result<u32, NoMemory>
    ensures { IfOk result (λ slot. slot ≡ slice_index_or (slots_from span) place 0) }
{
    let place = number_of(place)?;
    if place < span.count {
        behind(span.first, place)
    } else {
        Ok(0)
    }
}

/// A list of one slot.
fn one_slot(alloc: Global, slot: u32) -> Result<Sequence<u32>, NoMemory>
    ensures { IfOk result (λ slots. slots ≡ slot ∷ []) }
{
    let mut slots = Sequence::new(alloc);
    slots.push(slot)?;
    Ok(slots)
}

/// The slot at a place of some as a list, where there is such a place.
pub fn slots_there(
    alloc: Global,
    place: Option<usize>,
    span: Span,
) -> Result<Sequence<u32>, NoMemory>
    ensures { IfOk result (λ slots. slots ≡ slots_there place (slots_from span)) }
{
    match place {
        Some(place) => one_slot(alloc, slot_at(span, place)?),
        None => Ok(Sequence::new(alloc)),
    }
}
