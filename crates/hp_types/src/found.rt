// What the checker has found out: the types of expressions in the order of the text, and the files that are read.

ghost use Rattle.std.specs.Prelude.{◌≡◌, ◌<◌, [], ◌∷◌, ◌++◌, length, slice_set, Some, None, OnOk, IfOk};
ghost use Rattle.hp_types.specs.Known.{listed};

use crate::copied::copied;
use hp_script::typed::{ReadSpec, Shape};
use hp_word::place::NoMemory;
use hp_word::sequence::Sequence;
use std::alloc::Global;

/// The types of the expressions so far, none where one has no value, and the files that are read so far.
#[derive(Debug, Drop)]
pub struct Found {
    pub shapes: Sequence<Option<Shape>>,
    pub reads: Sequence<ReadSpec>,
}

impl Found {
    /// Nothing yet; takes no memory.
    pub fn new(alloc: Global) -> Found
        ensures { (result.shapes ≡ []) × (result.reads ≡ []) }
    {
        Found {
            shapes: Sequence::new(alloc),
            reads: Sequence::new(alloc),
        }
    }

    /// Adds what was found behind this.
    pub fn append(&mut self, later: Found) -> Result<(), NoMemory>
        ensures shapes { OnOk result (self.new.shapes ≡ self.old.shapes ++ later.shapes) }
        ensures reads { OnOk result (self.new.reads ≡ self.old.reads ++ later.reads) }
    {
        let Found { shapes, reads } = later;
        for shape in shapes.into_vec() {
            self.shapes.push(shape)?;
        }
        for read in reads.into_vec() {
            self.reads.push(read)?;
        }
        Ok(())
    }

    /// Adds a file, if there is one.
    pub fn add_file(&mut self, file: Option<ReadSpec>) -> Result<(), NoMemory>
        ensures reads { OnOk result (self.new.reads ≡ self.old.reads ++ listed file) }
        ensures shapes { self.new.shapes ≡ self.old.shapes }
    {
        if let Some(file) = file {
            self.reads.push(file)?;
        }
        Ok(())
    }

    /// Adds an expression of this type.
    pub fn add(&mut self, shape: &Shape) -> Result<(), NoMemory>
        ensures shapes { OnOk result (self.new.shapes ≡ self.old.shapes ++ Some shape.now ∷ []) }
        ensures reads { self.new.reads ≡ self.old.reads }
    {
        let copy = copied(shape)?;
        self.shapes.push(Some(copy))?;
        Ok(())
    }

    /// Adds an expression without a value, or one whose type is put in later; gives its number.
    pub fn add_none(&mut self) -> Result<usize, NoMemory>
        ensures shapes { OnOk result (self.new.shapes ≡ self.old.shapes ++ None ∷ []) }
        ensures number { IfOk result (λ number. number ≡ length self.old.shapes) }
        ensures reads { self.new.reads ≡ self.old.reads }
    {
        let number = self.shapes.len();
        self.shapes.push(None)?;
        Ok(number)
    }

    /// Puts in the type of an expression.
    pub fn set(&mut self, number: usize, shape: &Shape) -> Result<(), NoMemory>
        requires { number < length self.old.shapes }
        ensures shapes { OnOk result (self.new.shapes ≡ slice_set self.old.shapes number (Some shape.now)) }
        ensures reads { self.new.reads ≡ self.old.reads }
    {
        let copy = copied(shape)?;
        self.shapes.set(number, Some(copy));
        Ok(())
    }
}
