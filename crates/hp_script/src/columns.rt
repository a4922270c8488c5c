// The columns of frames, by their names: a list of names is held once, however many types have it, and so is each name.

ghost use Rattle.std.specs.Prelude.{◌≡◌, IfOk};

use hp_word::name::{Name, copied_name};
use hp_word::place::NoMemory;
use hp_word::sequence::Sequence;
use std::alloc::Global;
use std::marker::Model;
use std::rc::Rc;

/// The name of a column, held once by all that have it. A contract sees the name.
#[derive(Debug, Drop)]
pub struct ColumnName {
    name: Rc<Name>,
}

impl Model for ColumnName {
    ghost use Rattle.hp_word.specs.declared.name.Name.{Name};

    ghost Value = { Name };

    ghost view = { λ it. it.name.value };
}

impl ColumnName {
    /// A column of this name.
    pub fn of(alloc: Global, name: &Name) -> Result<ColumnName, NoMemory>
        ensures { IfOk result (λ column. column ≡ name.now) }
    {
        Ok(ColumnName {
            name: Rc::new(alloc, copied_name(alloc, name)?)?,
        })
    }

    /// The same name once more.
    pub fn shared(&self) -> Result<ColumnName, NoMemory>
        ensures { IfOk result (λ column. column ≡ self.now) }
    {
        Ok(ColumnName {
            name: self.name.clone()?,
        })
    }

    /// The name.
    pub fn name(&self) -> &Name
        ensures { result.now ≡ self.now }
    {
        self.name.as_ref()
    }
}

/// The names of the columns of a frame in their order, held once by all types that have them. A contract sees the list.
#[derive(Debug, Drop)]
pub struct Columns {
    names: Rc<Sequence<ColumnName>>,
}

impl Model for Columns {
    ghost use Rattle.std.specs.Prelude.{List};
    ghost use Rattle.hp_word.specs.declared.name.Name.{Name};

    ghost Value = { List Name };

    ghost view = { λ it. it.names.value };
}

impl Columns {
    /// Columns of these names.
    pub fn of(names: Sequence<ColumnName>) -> Result<Columns, NoMemory>
        ensures { IfOk result (λ columns. columns ≡ names) }
    {
        Ok(Columns {
            names: Rc::new(names.alloc(), names)?,
        })
    }

    /// The same columns once more.
    pub fn shared(&self) -> Result<Columns, NoMemory>
        ensures { IfOk result (λ columns. columns ≡ self.now) }
    {
        Ok(Columns {
            names: self.names.clone()?,
        })
    }

    /// The names in their order.
    pub fn as_slice(&self) -> &[ColumnName]
        ensures { result.now ≡ self.now }
    {
        self.names.as_ref().as_slice()
    }
}
