// Files that are read by name.

ghost use Rattle.std.specs.Prelude.{◌≡◌, ◌≤◌, ℕ, List, Option, Some, length, take, IfOk, IfSome, if◌then◌else◌};
ghost use Rattle.hp_outside.specs.declared.files.FileError.TheVariants.{NoMemory as no_memory};
ghost use Rattle.hp_outside.specs.Outside.{HasCause, is_fault};

pub mod host;
pub mod memory;

use hp_word::name::Name;
use hp_word::place::NoMemory;
use std::alloc::{AllocError, Global};

/// Why a file was not read.
#[derive(Clone, Copy, PartialEq, Eq)]
pub enum FileError {
    /// The outside failed: there is no such file, or it could not be read.
    Failed,
    /// Memory was refused.
    NoMemory,
}

impl From<AllocError> for FileError {
    ghost from_gives = { λ _ e. e ≡ no_memory };

    fn from(_error: AllocError) -> FileError {
        FileError::NoMemory
    }
}

impl From<NoMemory> for FileError {
    ghost from_gives = { λ _ e. e ≡ no_memory };

    fn from(_error: NoMemory) -> FileError {
        FileError::NoMemory
    }
}

/// Files by name.
pub trait Files {
    /// The bytes of the file of a name, `None` where they are not told.
    ghost holds: { Self → List ℕ → Option (List ℕ) };

    /// How many faults there were. It never falls.
    ghost faults: { Self → ℕ };

    /// The name of the last read that answered `Failed`.
    ghost failed: { Self → Option (List ℕ) };

    /// The first `limit` bytes of a file, or all of it where it is shorter. No read changes a file.
    fn read(&mut self, alloc: Global, name: &Name, limit: u64) -> Result<Vec<u8>, FileError>
        ensures within { IfOk result (λ bytes. length bytes.items ≤ limit) }
        ensures bytes { IfSome (holds self.old name.now.bytes)
            (λ file. IfOk result (λ bytes. bytes.items ≡ take limit file)) }
        ensures same { (other : List ℕ) → holds self.new other ≡ holds self.old other }
        ensures cause { HasCause (faults self.old) (faults self.new) (is_fault result) }
        ensures named { failed self.new
            ≡ (if is_fault result then Some name.now.bytes else failed self.old) };
}
