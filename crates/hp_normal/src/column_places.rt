// The columns of frames that are looked into often, found by a hash of their names.

ghost use Rattle.std.specs.Prelude.{◌≡◌, ℕ, Option as SpecOption, bytes_eq, nat_eq, position, slice_get, slice_index_or, Some, None, IfOk, OnOk, IfSome};
ghost use Rattle.std.specs.Option.{option_copied, option_map};
ghost use Rattle.indexmap.specs.IndexMap.{get};
ghost use Rattle.hp_script.specs.declared.typed.Shape.{Shape as SpecShape};
ghost use Rattle.hp_normal.specs.PlacesFound.{HasColumns, HasFrames, columns_in};

use crate::places::note_name;
use crate::spans::{shape_in, shape_of};
use hp_script::columns::ColumnName;
use hp_script::typed::{Shape, Var};
use hp_word::place::{NoMemory, NodeId};
use indexmap::IndexMap;
use std::alloc::Global;
use std::marker::Model;

/// The place of each name among columns.
fn places_of_columns(
    alloc: Global,
    columns: &[ColumnName],
) -> Result<IndexMap<Vec<u8>, usize>, NoMemory>
    ensures { IfOk result (λ places. HasColumns columns.now places.entries) }
{
    let mut places = IndexMap::new(alloc);
    for (place, column) in columns.iter().enumerate() {
        let name = column.name();
        note_name(&mut places, alloc, name.bytes.as_slice(), place)?;
    }
    Ok(places)
}

/// The columns of a frame, each found by its name. A contract sees their names.
#[derive(Drop)]
pub struct ColumnPlaces<'a> {
    columns: &'a [ColumnName],
    places: IndexMap<Vec<u8>, usize>,
}

impl<'a> Model for ColumnPlaces<'a> {
    ghost use Rattle.std.specs.Prelude.{List};
    ghost use Rattle.hp_word.specs.declared.name.Name.{Name};
    ghost use Rattle.hp_normal.specs.PlacesFound.{HasColumns};

    ghost Value = { List Name };

    ghost view = { λ it. it.columns.now };

    ghost invariant = { λ it. HasColumns it.columns.now it.places.entries };
}

impl<'a> ColumnPlaces<'a> {
    /// These columns.
    fn of(alloc: Global, columns: &'a [ColumnName]) -> Result<ColumnPlaces<'a>, NoMemory>
        ensures { IfOk result (λ places. places ≡ columns.now) }
    {
        let places = places_of_columns(alloc, columns)?;
        Ok(ColumnPlaces { columns, places })
    }

    /// The position of the column with a name.
    pub fn place_of(&self, name: &[u8]) -> Option<usize>
        ensures { result ≡ position (λ column. bytes_eq name.now column.bytes) self.now }
    {
        self.places.get(name).copied()
    }
}

/// The columns of a frame.
fn columns_of(shape: Option<&Shape>) -> Option<&[ColumnName]>
    ensures { IfSome result (λ columns. columns.now ≡ columns_in (option_copied shape.entry)) }
{
    match shape {
        Some(shape) => match shape {
            Shape::Frame(columns) => Some(columns.as_slice()),
            Shape::Int | Shape::Bool | Shape::Ints | Shape::Bools | Shape::Matrix => None,
        },
        None => None,
    }
}

/// Holds the columns of a value by its number, where it is a frame.
fn hold<'a>(
    frames: &mut IndexMap<usize, ColumnPlaces<'a>>,
    alloc: Global,
    number: usize,
    shape: Option<&'a Shape>,
) -> Result<(), NoMemory>
    ensures { (shape_of : ℕ → SpecOption SpecShape) → HasFrames shape_of (get nat_eq frames.old) → shape_of number ≡ option_copied shape.entry → OnOk result (HasFrames shape_of (get nat_eq frames.new)) }
{
    let Some(columns) = columns_of(shape) else {
        return Ok(());
    };
    frames.insert(number, ColumnPlaces::of(alloc, columns)?)?;
    Ok(())
}

/// The columns of the frames among some expressions, by the numbers of these.
pub fn frames_of_nodes<'a>(
    alloc: Global,
    shapes: &'a [Option<Shape>],
    nodes: &[u32],
) -> Result<IndexMap<usize, ColumnPlaces<'a>>, NoMemory>
    ensures { IfOk result (λ frames. HasFrames (λ n. slice_index_or shapes.now n None) (get nat_eq frames)) }
{
    let mut frames = IndexMap::new(alloc);
    for node in nodes {
        hold(
            &mut frames,
            alloc,
            *node as usize,
            shape_in(shapes, NodeId(*node)),
        )?;
    }
    Ok(frames)
}

/// The columns of the frames among some variables, by the places of these.
pub fn frames_of_vars<'a>(
    alloc: Global,
    vars: &'a [Var],
    places: &[usize],
) -> Result<IndexMap<usize, ColumnPlaces<'a>>, NoMemory>
    ensures { IfOk result (λ frames. HasFrames (λ n. option_map (λ v. v.shape) (slice_get vars.now n)) (get nat_eq frames)) }
{
    let mut frames = IndexMap::new(alloc);
    for place in places {
        hold(&mut frames, alloc, *place, shape_of(vars, *place))?;
    }
    Ok(frames)
}
