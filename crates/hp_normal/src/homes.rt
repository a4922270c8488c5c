// Where the program of a script keeps what the script names.

ghost use Rattle.std.specs.Prelude.{◌≡◌, ◌==◌, IfOk, length, map};
ghost use Rattle.std.specs.List.{position_or_len};
ghost use Rattle.std.specs.Option.{option_copied};
ghost use Rattle.hp_script.specs.Mirror.{tree_of};
ghost use Rattle.hp_air.specs.Unknowns.{shape_at, at_node, arrays_at, shape_named, arrays_named, column_named, columns_of, of_node, balanced_of};
ghost use Rattle.hp_flat.specs.Homes.{word_named, word_at, word_of, words_in, slot_of, slots_in, slots_of, homes_of};
ghost use Rattle.hp_flat.specs.FlatCalls.{table_of, ins_of, frame_at, key_in};
ghost use Rattle.hp_normal.specs.Programs.{only_of, first_of, slots_from, frame_at_node};

use crate::copies::add_copies_of;
use crate::known::{Known, Shapes, Variables, known_in};
use crate::places::Numbers;
use crate::slots::slots_with;
use crate::spans::{
    Span, array_in, behind, first_in, first_slots, names_among, number_of, slots_in_span,
    slots_there, span_from, width_of,
};
use hp_air::slot::Slot;
use hp_meaning::reads::add_reads_of;
use hp_script::tree::{Expr, Form};
use hp_script::typed::{Shape, Typed, Var};
use hp_word::name::Name;
use hp_word::place::{NoMemory, NodeId, Place};
use hp_word::sequence::Sequence;
use std::alloc::Global;
use std::marker::Model;

/// An expression by its number and its place.
#[derive(Clone, Copy)]
pub struct Site {
    pub id: NodeId,
    pub at: Place,
}

/// The places of a script: by its types and variables, the calls that read tables, and the stencils. A contract sees the
/// places that the definitions speak of.
#[derive(Drop)]
pub struct Homes<'a> {
    alloc: Global,
    shapes: Shapes<'a>,
    vars: Variables<'a>,
    reads: Numbers,
    copies: Numbers,
    slots: Vec<u32>,
}

impl<'a> Model for Homes<'a> {
    ghost use Rattle.hp_flat.specs.Homes.{Homes};
    ghost use Rattle.hp_normal.specs.HomesHeld.{homes_with, AreHomes};

    ghost Value = { Homes };

    ghost view = { λ it. homes_with it.shapes it.vars it.reads it.copies };

    ghost invariant = { λ it. AreHomes it.shapes it.vars it.slots.items };
}

impl<'a> Homes<'a> {
    /// The places of a script.
    #[tactic(auto, using(crate::proofs::CopyLemmas::all_places))]
    pub fn of(alloc: Global, typed: &'a Typed) -> Result<Homes<'a>, NoMemory>
        ensures { IfOk result (λ homes. homes ≡ homes_of typed.now) }
    {
        let Known { shapes, vars } = known_in(alloc, typed)?;
        let mut reads = Vec::new(alloc);
        add_reads_of(&mut reads, typed.script.body.as_slice())?;
        let mut copies = Vec::new(alloc);
        add_copies_of(typed.script.body.as_slice(), shapes.as_slice(), &mut copies)?;
        let slots = first_slots(alloc, shapes.as_slice(), vars.as_slice())?;
        Ok(Homes {
            alloc,
            shapes,
            vars,
            reads: Numbers::of(alloc, reads)?,
            copies: Numbers::of(alloc, copies)?,
            slots,
        })
    }

    /// Where memory is taken from.
    pub fn alloc(&self) -> Global {
        self.alloc
    }

    /// The word of the variable with this name.
    #[tactic(auto, unfolding(hp_flat::specs::Homes::word_named))]
    pub fn word_named(&self, name: &[u8]) -> Result<u32, NoMemory>
        ensures { IfOk result (λ word. word ≡ word_named self.now name.now) }
    {
        number_of(self.vars.place_or_len(name))
    }

    /// The word of the expression with this number.
    #[tactic(auto, unfolding(hp_flat::specs::Homes::word_at))]
    pub fn word_at(&self, id: NodeId) -> Result<u32, NoMemory>
        ensures { IfOk result (λ word. word ≡ word_at self.now id.0) }
    {
        behind(number_of(self.vars.len())?, id.0)
    }

    /// The word in which the value of an expression stands.
    #[tactic(auto, unfolding(hp_script::specs::Mirror::form_of, hp_script::specs::Mirror::tree_of, hp_flat::specs::Homes::word_of))]
    pub fn word_of(&self, x: &Expr) -> Result<u32, NoMemory>
        ensures { IfOk result (λ word. word ≡ word_of self.now (tree_of x.now)) }
    {
        match &x.form {
            Form::Name(name) => self.word_named(name.bytes.as_slice()),
            _ => self.word_at(x.id),
        }
    }

    /// How many words there are.
    #[tactic(auto, unfolding(hp_flat::specs::Homes::words_in))]
    pub fn words(&self) -> Result<u32, NoMemory>
        ensures { IfOk result (λ words. words ≡ words_in self.now) }
    {
        behind(number_of(self.vars.len())?, number_of(self.shapes.len())?)
    }

    /// The slots: one for each array.
    #[tactic(auto, using(crate::proofs::SlotForms::all_slots))]
    pub fn slots(&self) -> Result<Sequence<Slot>, NoMemory>
        ensures { IfOk result (λ slots. slots ≡ slots_in self.now) }
    {
        Ok(Sequence::from_vec(slots_with(
            self.alloc,
            self.shapes.as_slice(),
            self.vars.as_slice(),
            self.copies.as_slice(),
        )?))
    }

    /// The type of the expression with this number, where it has a value.
    pub fn shape_at(&self, id: NodeId) -> Option<&Shape>
        ensures { option_copied result ≡ shape_at self.now.known id.0 }
    {
        self.shapes.shape_at(id)
    }

    /// The type of the variable with this name.
    pub fn shape_named(&self, name: &[u8]) -> Option<&Shape>
        ensures { option_copied result ≡ shape_named self.now.known name.now }
    {
        self.vars.shape_named(name)
    }

    /// The slots of the value of the expression with this number.
    #[tactic(auto, using(crate::proofs::SlotPlaces::node_slots))]
    pub fn span_at(&self, id: NodeId) -> Result<Span, NoMemory>
        ensures { IfOk result (λ span. slots_of self.now (at_node self.now.known id.0) ≡ slots_from span) }
    {
        let count = width_of(self.shapes.shape_at(id));
        let Some(place) = self.vars.len().checked_add(id.0 as usize) else {
            return Err(NoMemory);
        };
        span_from(self.slots.as_slice(), place, count)
    }

    /// The slots of the variable with this name.
    #[tactic(auto, using(crate::proofs::NamedSlots::slots_found, crate::proofs::NamedSlots::slots_missing))]
    pub fn span_named(&self, name: &[u8]) -> Result<Span, NoMemory>
        ensures { IfOk result (λ span. slots_of self.now (arrays_named self.now.known name.now) ≡ slots_from span) }
    {
        let Some(place) = self.vars.place_of(name) else {
            return Ok(Span { first: 0, count: 0 });
        };
        span_from(
            self.slots.as_slice(),
            place,
            width_of(self.vars.shape_of(place)),
        )
    }

    /// The slots of the value of the expression with this number, as a list.
    pub fn slots_at(&self, id: NodeId) -> Result<Sequence<u32>, NoMemory>
        ensures { IfOk result (λ slots. slots ≡ slots_of self.now (at_node self.now.known id.0)) }
    {
        slots_in_span(self.alloc, self.span_at(id)?)
    }

    /// The slots of the variable with this name, as a list.
    pub fn slots_named(&self, name: &[u8]) -> Result<Sequence<u32>, NoMemory>
        ensures { IfOk result (λ slots. slots ≡ slots_of self.now (arrays_named self.now.known name.now)) }
    {
        slots_in_span(self.alloc, self.span_named(name)?)
    }

    /// The slot of the value of the expression with this number, where it is one array.
    pub fn array_at(&self, id: NodeId) -> Result<Option<u32>, NoMemory>
        ensures { IfOk result (λ array. array ≡ only_of (slots_of self.now (at_node self.now.known id.0))) }
    {
        Ok(array_in(self.span_at(id)?))
    }

    /// The slot of the first array of the expression with this number. What has none has no slot; it is asked for of
    /// none such in a script that fits.
    #[tactic(auto, using(crate::proofs::SpanLemmas::first_slot))]
    pub fn out_of(&self, id: NodeId) -> Result<u32, NoMemory>
        ensures { IfOk result (λ out. out ≡ slot_of self.now (of_node id.0 0)) }
    {
        let span = self.span_at(id)?;
        if span.count == 0 {
            return Err(NoMemory);
        }
        Ok(span.first)
    }

    /// The slot of the balanced copy of a stencil.
    #[tactic(auto, using(crate::proofs::NamedSlots::copy_slot))]
    pub fn copy_slot(&self, id: NodeId) -> Result<u32, NoMemory>
        ensures { IfOk result (λ slot. slot ≡ slot_of self.now (balanced_of id.0)) }
    {
        let Some(place) = self.vars.len().checked_add(self.shapes.len()) else {
            return Err(NoMemory);
        };
        let span = span_from(self.slots.as_slice(), place, 0)?;
        behind(span.first, number_of(self.copies.place_or_len(id.0))?)
    }

    /// The table of a call that reads: its place among these.
    pub fn table_of(&self, id: NodeId) -> Result<u32, NoMemory>
        ensures { IfOk result (λ table. table ≡ table_of self.now id.0) }
    {
        number_of(self.reads.place_or_len(id.0))
    }

    /// How many arrays the value of an expression is.
    #[tactic(auto, using(crate::proofs::ValueForms::number_is, crate::proofs::ArrayForms::many_arrays))]
    pub fn count_of(&self, x: &Expr) -> Result<u32, NoMemory>
        ensures { IfOk result (λ count. count ≡ length (arrays_at self.now.known (tree_of x.now))) }
    {
        number_of(width_of(self.shape_at(x.id)))
    }

    /// The slots of the value of an expression.
    #[tactic(auto, using(crate::proofs::ValueForms::number_is))]
    pub fn ins_of(&self, x: &Expr) -> Result<Sequence<u32>, NoMemory>
        ensures { IfOk result (λ slots. slots ≡ ins_of self.now (tree_of x.now)) }
    {
        self.slots_at(x.id)
    }

    /// The slot of the value of an expression, where it is one array.
    #[tactic(auto, using(crate::proofs::ValueForms::number_is))]
    pub fn array_of(&self, x: &Expr) -> Result<Option<u32>, NoMemory>
        ensures { IfOk result (λ array. array ≡ only_of (ins_of self.now (tree_of x.now))) }
    {
        self.array_at(x.id)
    }

    /// The slot of the first array of the value of an expression.
    #[tactic(auto, using(crate::proofs::ValueForms::number_is))]
    pub fn first_of(&self, x: &Expr) -> Result<Option<u32>, NoMemory>
        ensures { IfOk result (λ array. array ≡ first_of (ins_of self.now (tree_of x.now))) }
    {
        Ok(first_in(self.span_at(x.id)?))
    }

    /// The position of a column in the frame that an expression is.
    #[tactic(auto, using(crate::proofs::ValueForms::number_is, crate::proofs::ArrayForms::key_is))]
    pub fn key_of(&self, x: &Expr, column: &[u8]) -> Result<u32, NoMemory>
        ensures { IfOk result (λ key. key ≡ key_in (frame_at self.now (tree_of x.now)) column.now) }
    {
        number_of(self.shapes.column_or_count(x.id, column))
    }

    /// The names of the columns of the frame that an expression is.
    #[tactic(auto, using(crate::proofs::ValueForms::number_is))]
    pub fn names_of(&self, x: &Expr) -> Result<Sequence<Name>, NoMemory>
        ensures { IfOk result (λ names. names ≡ (frame_at self.now (tree_of x.now)).names) }
    {
        names_among(self.alloc, self.shape_at(x.id))
    }

    /// The slot of a column of the frame that is the value of the expression with this number.
    #[tactic(auto, using(crate::proofs::ArrayForms::node_column))]
    fn column_at(&self, id: NodeId, column: &[u8]) -> Result<Sequence<u32>, NoMemory>
        ensures { IfOk result (λ slots. slots ≡ slots_of self.now (column_named (columns_of (shape_at self.now.known id.0) (at_node self.now.known id.0)) column.now)) }
    {
        let place = self.shapes.column_at(id, column);
        slots_there(self.alloc, place, self.span_at(id)?)
    }

    /// The slot of a column of the frame that the innermost filter around filters.
    pub fn column_around(
        &self,
        around: Option<NodeId>,
        column: &[u8],
    ) -> Result<Sequence<u32>, NoMemory>
        ensures { IfOk result (λ slots. slots ≡ slots_of self.now (column_named (frame_at_node self.now.known around) column.now)) }
    {
        match around {
            Some(id) => self.column_at(id, column),
            None => Ok(Sequence::new(self.alloc)),
        }
    }

    /// The slot of a column of the frame that a variable is.
    #[tactic(auto, using(crate::proofs::ArrayForms::variable_column))]
    pub fn field_of(&self, name: &[u8], column: &[u8]) -> Result<Sequence<u32>, NoMemory>
        ensures { IfOk result (λ slots. slots ≡ slots_of self.now (column_named (columns_of (shape_named self.now.known name.now) (arrays_named self.now.known name.now)) column.now)) }
    {
        let place = self.vars.column_named(name, column);
        slots_there(self.alloc, place, self.span_named(name)?)
    }
}
