// The arrays of the arguments of a call that are values.

ghost use Rattle.std.specs.Prelude.{◌≡◌, [], slice_index_or, IfOk};
ghost use Rattle.hp_air.specs.Unknowns.{all};
ghost use Rattle.hp_flat.specs.Homes.{slots_of};
ghost use Rattle.hp_normal.specs.Programs.{only_of, first_of, slots_from, sides_at};

use crate::homes::Homes;
use crate::spans::{Span, array_in, first_in, slots_in_span};
use hp_word::place::{NoMemory, NodeId};
use hp_word::sequence::Sequence;

/// The slots of the value at a place among them; none where there is none.
#[tactic(auto, using(crate::proofs::ArrayForms::side_there, crate::proofs::ArrayForms::side_missing))]
fn span_among(homes: &Homes<'_>, values: &[u32], place: usize) -> Result<Span, NoMemory>
    ensures { IfOk result (λ span. slots_of homes.now (slice_index_or (sides_at homes.now.known values.now) place []) ≡ slots_from span) }
{
    match values.get(place) {
        Some(node) => homes.span_at(NodeId(*node)),
        None => Ok(Span { first: 0, count: 0 }),
    }
}

/// The slot of the value at a place among them, where it is one array.
pub fn array_among(homes: &Homes<'_>, values: &[u32], place: usize) -> Result<Option<u32>, NoMemory>
    ensures { IfOk result (λ array. array ≡ only_of (slots_of homes.now (slice_index_or (sides_at homes.now.known values.now) place []))) }
{
    Ok(array_in(span_among(homes, values, place)?))
}

/// The first slot of the first of them.
pub fn first_among(homes: &Homes<'_>, values: &[u32]) -> Result<Option<u32>, NoMemory>
    ensures { IfOk result (λ array. array ≡ first_of (slots_of homes.now (slice_index_or (sides_at homes.now.known values.now) 0 []))) }
{
    Ok(first_in(span_among(homes, values, 0)?))
}

/// The slots of the first of them.
pub fn slots_among(homes: &Homes<'_>, values: &[u32]) -> Result<Sequence<u32>, NoMemory>
    ensures { IfOk result (λ slots. slots ≡ slots_of homes.now (slice_index_or (sides_at homes.now.known values.now) 0 [])) }
{
    slots_in_span(homes.alloc(), span_among(homes, values, 0)?)
}

/// The slots of all of them.
pub fn all_slots(homes: &Homes<'_>, values: &[u32]) -> Result<Sequence<u32>, NoMemory>
    ensures { IfOk result (λ slots. slots ≡ slots_of homes.now (all (sides_at homes.now.known values.now))) }
{
    let mut slots = Vec::new(homes.alloc());
    for node in values {
        slots.extend_from_slice(homes.slots_at(NodeId(*node))?.as_slice())?;
    }
    Ok(Sequence::from_vec(slots))
}
