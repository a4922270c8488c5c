// Names: of variables, columns and files.

ghost use Rattle.std.specs.Prelude.{◌≡◌, IfOk};

use crate::place::NoMemory;
use crate::sequence::Sequence;
use std::alloc::Global;

/// A name, as its bytes.
#[derive(Debug, Drop)]
pub struct Name {
    pub bytes: Sequence<u8>,
}

impl Name {
    /// A name with these bytes.
    pub fn of(alloc: Global, bytes: &[u8]) -> Result<Name, NoMemory>
        ensures { IfOk result (λ name. name.bytes ≡ bytes.now) }
    {
        Ok(Name {
            bytes: Sequence::from_slice(alloc, bytes)?,
        })
    }
}

/// A copy of a name.
pub fn copied_name(alloc: Global, name: &Name) -> Result<Name, NoMemory>
    ensures { IfOk result (λ copy. copy ≡ name.now) }
{
    Name::of(alloc, name.bytes.as_slice())
}
