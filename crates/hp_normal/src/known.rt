// What is known of a script: the types of its expressions by their numbers, and its variables by their names.

ghost use Rattle.std.specs.Prelude.{◌≡◌, None, bytes_eq, length, position, slice_get, slice_index_or, IfOk, OnOk};
ghost use Rattle.std.specs.List.{position_or_len};
ghost use Rattle.std.specs.Option.{option_copied, option_map};
ghost use Rattle.hp_normal.specs.PlacesFound.{HasNames, columns_in, column_place, named_shape};

use crate::column_places::{ColumnPlaces, frames_of_nodes, frames_of_vars};
use crate::look_ups::LookUps;
use crate::places::places_of_vars;
use crate::spans::{column_among, column_count, shape_in, shape_of};
use hp_script::typed::{Shape, Typed, Var};
use hp_word::place::{NoMemory, NodeId};
use indexmap::IndexMap;
use std::alloc::Global;
use std::marker::Model;

/// The types of expressions by their numbers; the columns of some that are frames are found by a hash. A contract sees
/// the types.
#[derive(Drop)]
pub struct Shapes<'a> {
    shapes: &'a [Option<Shape>],
    frames: IndexMap<usize, ColumnPlaces<'a>>,
}

impl<'a> Model for Shapes<'a> {
    ghost use Rattle.std.specs.Prelude.{List, Option, None, nat_eq, slice_index_or};
    ghost use Rattle.indexmap.specs.IndexMap.{get};
    ghost use Rattle.hp_script.specs.declared.typed.Shape.{Shape};
    ghost use Rattle.hp_normal.specs.PlacesFound.{HasFrames};

    ghost Value = { List (Option Shape) };

    ghost view = { λ it. it.shapes.now };

    ghost invariant = { λ it. HasFrames (λ n. slice_index_or it.shapes.now n None) (get nat_eq it.frames) };
}

impl<'a> Shapes<'a> {
    /// These types; the columns of these expressions are found by a hash, where they are frames.
    fn of(alloc: Global, shapes: &'a [Option<Shape>], nodes: &[u32]) -> Result<Shapes<'a>, NoMemory>
        ensures { IfOk result (λ made. made ≡ shapes.now) }
    {
        let frames = frames_of_nodes(alloc, shapes, nodes)?;
        Ok(Shapes { shapes, frames })
    }

    /// The types in the order of the numbers.
    pub fn as_slice(&self) -> &[Option<Shape>]
        ensures { result.now ≡ self.now }
    {
        self.shapes
    }

    /// How many expressions there are.
    pub fn len(&self) -> usize
        ensures { result ≡ length self.now }
    {
        self.shapes.len()
    }

    /// The type of the expression with this number, where it has a value.
    pub fn shape_at(&self, id: NodeId) -> Option<&Shape>
        ensures { option_copied result ≡ slice_index_or self.now id.0 None }
    {
        shape_in(self.shapes, id)
    }

    /// The position of a column of the value of the expression with this number, where it is a frame that has it.
    #[tactic(auto, using(crate::proofs::PlaceForms::frame_found))]
    pub fn column_at(&self, id: NodeId, name: &[u8]) -> Option<usize>
        ensures { result ≡ column_place (slice_index_or self.now id.0 None) name.now }
    {
        let number = id.0 as usize;
        match self.frames.get(&number) {
            Some(columns) => columns.place_of(name),
            None => column_among(self.shape_at(id), name),
        }
    }

    /// The same, or how many columns there are, where none has the name.
    #[tactic(auto, using(crate::proofs::HomeLemmas::place_found, crate::proofs::HomeLemmas::place_missing))]
    pub fn column_or_count(&self, id: NodeId, name: &[u8]) -> usize
        ensures { result ≡ position_or_len (λ column. bytes_eq name.now column.bytes) (columns_in (slice_index_or self.now id.0 None)) }
    {
        match self.column_at(id, name) {
            Some(place) => place,
            None => column_count(self.shape_at(id)),
        }
    }
}

/// Variables in their order; the columns of some that are frames are found by a hash. A contract sees the variables.
#[derive(Drop)]
pub struct VarList<'a> {
    vars: &'a [Var],
    frames: IndexMap<usize, ColumnPlaces<'a>>,
}

impl<'a> Model for VarList<'a> {
    ghost use Rattle.std.specs.Prelude.{List, nat_eq, slice_get};
    ghost use Rattle.std.specs.Option.{option_map};
    ghost use Rattle.indexmap.specs.IndexMap.{get};
    ghost use Rattle.hp_script.specs.declared.typed.Var.{Var};
    ghost use Rattle.hp_normal.specs.PlacesFound.{HasFrames};

    ghost Value = { List Var };

    ghost view = { λ it. it.vars.now };

    ghost invariant = { λ it. HasFrames (λ n. option_map (λ v. v.shape) (slice_get it.vars.now n)) (get nat_eq it.frames) };
}

impl<'a> VarList<'a> {
    /// These variables; the columns of those at these places are found by a hash, where they are frames.
    fn of(alloc: Global, vars: &'a [Var], places: &[usize]) -> Result<VarList<'a>, NoMemory>
        ensures { IfOk result (λ made. made ≡ vars.now) }
    {
        let frames = frames_of_vars(alloc, vars, places)?;
        Ok(VarList { vars, frames })
    }

    /// How many there are.
    fn len(&self) -> usize
        ensures { result ≡ length self.now }
    {
        self.vars.len()
    }

    /// The variables in their order.
    fn as_slice(&self) -> &[Var]
        ensures { result.now ≡ self.now }
    {
        self.vars
    }

    /// The type of the variable at a place.
    fn shape_of(&self, place: usize) -> Option<&Shape>
        ensures { option_copied result ≡ option_map (λ v. v.shape) (slice_get self.now place) }
    {
        shape_of(self.vars, place)
    }

    /// The position of a column of the variable at a place, where it is a frame that has it.
    #[tactic(auto, using(crate::proofs::PlaceForms::frame_found))]
    fn column_at(&self, place: usize, name: &[u8]) -> Option<usize>
        ensures { result ≡ column_place (option_map (λ v. v.shape) (slice_get self.now place)) name.now }
    {
        match self.frames.get(&place) {
            Some(columns) => columns.place_of(name),
            None => column_among(self.shape_of(place), name),
        }
    }
}

/// The variables of a script, each found by its name. A contract sees their list.
#[derive(Drop)]
pub struct Variables<'a> {
    list: VarList<'a>,
    places: IndexMap<Vec<u8>, usize>,
}

impl<'a> Model for Variables<'a> {
    ghost use Rattle.std.specs.Prelude.{List};
    ghost use Rattle.hp_script.specs.declared.typed.Var.{Var};
    ghost use Rattle.hp_normal.specs.PlacesFound.{HasNames};

    ghost Value = { List Var };

    ghost view = { λ it. it.list };

    ghost invariant = { λ it. HasNames it.list it.places.entries };
}

impl<'a> Variables<'a> {
    /// These variables.
    fn of(
        alloc: Global,
        vars: &'a [Var],
        places: IndexMap<Vec<u8>, usize>,
        often: &[usize],
    ) -> Result<Variables<'a>, NoMemory>
        requires { HasNames vars.now places.entries }
        ensures { IfOk result (λ variables. variables ≡ vars.now) }
    {
        let list = VarList::of(alloc, vars, often)?;
        Ok(Variables { list, places })
    }

    /// How many there are.
    pub fn len(&self) -> usize
        ensures { result ≡ length self.now }
    {
        self.list.len()
    }

    /// The variables in their order.
    pub fn as_slice(&self) -> &[Var]
        ensures { result.now ≡ self.now }
    {
        self.list.as_slice()
    }

    /// The place of the variable with a name.
    pub fn place_of(&self, name: &[u8]) -> Option<usize>
        ensures { result ≡ position (λ v. bytes_eq name.now v.name.bytes) self.now }
    {
        self.places.get(name).copied()
    }

    /// The same, or how many variables there are, where none has the name.
    #[tactic(auto, using(crate::proofs::HomeLemmas::place_found, crate::proofs::HomeLemmas::place_missing))]
    pub fn place_or_len(&self, name: &[u8]) -> usize
        ensures { result ≡ position_or_len (λ v. bytes_eq name.now v.name.bytes) self.now }
    {
        match self.place_of(name) {
            Some(place) => place,
            None => self.len(),
        }
    }

    /// The type of the variable at a place.
    pub fn shape_of(&self, place: usize) -> Option<&Shape>
        ensures { option_copied result ≡ option_map (λ v. v.shape) (slice_get self.now place) }
    {
        self.list.shape_of(place)
    }

    /// The type of the variable with a name.
    pub fn shape_named(&self, name: &[u8]) -> Option<&Shape>
        ensures { option_copied result ≡ named_shape self.now name.now }
    {
        match self.place_of(name) {
            Some(place) => self.shape_of(place),
            None => None,
        }
    }

    /// The position of a column of the variable with a name, where it is a frame that has it.
    pub fn column_named(&self, name: &[u8], column: &[u8]) -> Option<usize>
        ensures { result ≡ column_place (named_shape self.now name.now) column.now }
    {
        match self.place_of(name) {
            Some(place) => self.list.column_at(place, column),
            None => None,
        }
    }
}

/// What is known of a script.
#[derive(Drop)]
pub struct Known<'a> {
    pub shapes: Shapes<'a>,
    pub vars: Variables<'a>,
}

/// What is known of a script.
pub fn known_in<'a>(alloc: Global, typed: &'a Typed) -> Result<Known<'a>, NoMemory>
    ensures shapes { IfOk result (λ known. known.shapes ≡ typed.now.shapes) }
    ensures vars { IfOk result (λ known. known.vars ≡ typed.now.vars) }
{
    let vars = typed.vars.as_slice();
    let places = places_of_vars(alloc, vars)?;
    let looks = LookUps::of(alloc, typed.script.body.as_slice(), vars.len(), &places)?;
    let often = looks.vars(alloc)?;
    Ok(Known {
        shapes: Shapes::of(alloc, typed.shapes.as_slice(), looks.nodes())?,
        vars: Variables::of(alloc, vars, places, often.as_slice())?,
    })
}
