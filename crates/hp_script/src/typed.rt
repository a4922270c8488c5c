// Scripts with the shapes of their values.

ghost use Rattle.std.specs.Prelude.{◌≡◌, length, map, IsTrue};
ghost use Rattle.std.specs.List.{list_all};
ghost use Rattle.std.specs.Option.{is_some};
ghost use Rattle.hp_script.specs.Mirror.{block_of};
ghost use Rattle.hp_script.specs.Shapes.{is_narrow, is_narrow_entry};
ghost use Rattle.hp_script.specs.Valued.{values_of};

use crate::columns::Columns;
use crate::tree::Script;
use hp_word::name::Name;
use hp_word::sequence::Sequence;

/// The type of a value.
#[derive(Debug, Drop)]
pub enum Shape {
    Int,
    Bool,
    /// An array of numbers.
    Ints,
    /// An array of truth values.
    Bools,
    Matrix,
    /// A table, by the names of its columns.
    Frame(Columns),
}

/// A variable.
#[derive(Debug, Drop)]
pub struct Var {
    pub name: Name,
    pub shape: Shape,
}

/// A file that a script reads, and the columns that it reads of it.
#[derive(Debug, Drop)]
pub struct ReadSpec {
    pub file: Name,
    pub columns: Sequence<Name>,
}

/// A script, its variables, the shape of each of its expressions that has a value, by the expression's number, and
/// the files that it reads, in the order of the text.
#[derive(Debug, Drop)]
pub struct Typed {
    pub script: Script,
    pub vars: Sequence<Var>,
    pub shapes: Sequence<Option<Shape>>,
    pub reads: Sequence<ReadSpec>,
    pub ghost one_each: { length shapes ≡ script.nodes },
    pub ghost valued: { map is_some shapes ≡ values_of (block_of script.body) },
    pub ghost narrow_vars: { IsTrue (list_all (λ var. is_narrow var.shape) vars) },
    pub ghost narrow_shapes: { IsTrue (list_all is_narrow_entry shapes) },
}
