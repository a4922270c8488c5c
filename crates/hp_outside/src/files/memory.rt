// Files in memory, whose reads fail where they are told to.

ghost use Rattle.std.specs.Prelude.{◌≡◌, ◌≤◌, ℕ, List, Some, None, false, length, take, IfOk, IfNone, OnSome, IfSome, IsErr, option_copied, if◌then◌else◌};
ghost use Rattle.hp_outside.specs.Outside.{HasCause, is_fault};
ghost use Rattle.hp_outside.specs.Memory.{fails_at, held_by, served, after_read};

use super::{FileError, Files};
use crate::counts::counted;
use hp_word::name::Name;
use hp_word::place::NoMemory;
use hp_word::sequence::Sequence;
use std::alloc::Global;

/// A file in memory.
#[derive(Drop)]
pub struct MemFile {
    pub name: Name,
    pub bytes: Sequence<u8>,
}

// The bytes of the first file of a name.
fn held_by<'a>(files: &'a [MemFile], name: &[u8]) -> Option<&'a [u8]>
    ensures { option_copied result ≡ held_by files.now name.now }
{
    for file in files {
        if file.name.bytes.as_slice() == name {
            return Some(file.bytes.as_slice());
        }
    }
    None
}

// The first bytes of a file, at most `limit` of them.
fn first_bytes(alloc: Global, file: &[u8], limit: u64) -> Result<Vec<u8>, NoMemory>
    ensures { IfOk result (λ bytes. bytes.items ≡ take limit file.now) }
{
    let count = limit.min(file.len() as u64) as usize;
    Ok(Vec::from_slice(alloc, &file[..count])?)
}

/// Files in memory, of which the first of a name is read. Reads whose numbers are told fail, as does
/// one of a name that is not there.
#[derive(Drop)]
pub struct MemFiles {
    files: Sequence<MemFile>,
    failing: Sequence<u64>,
    calls: u64,
    faults: u64,
    failed: Option<Sequence<u8>>,
}

impl MemFiles {
    /// These files. The reads whose numbers, from 1, stand in `failing` fail.
    pub fn new(files: Vec<MemFile>, failing: Vec<u64>) -> MemFiles
        ensures files { result.files ≡ files.items }
        ensures failing { result.failing ≡ failing.items }
        ensures calls { result.calls ≡ 0 }
        ensures faults { result.faults ≡ 0 }
        ensures failed { result.failed ≡ None }
    {
        MemFiles {
            files: Sequence::from_vec(files),
            failing: Sequence::from_vec(failing),
            calls: 0,
            faults: 0,
            failed: None,
        }
    }

    /// How many reads failed.
    pub fn fault_count(&self) -> u64
        ensures { result ≡ self.now.faults }
    {
        self.faults
    }

    /// The name of the last read that failed.
    pub fn failed_name(&self) -> Option<&[u8]>
        ensures { option_copied result ≡ self.now.failed }
    {
        match &self.failed {
            Some(name) => Some(name.as_slice()),
            None => None,
        }
    }

    // The bytes that the read of this number has to give from, unless it fails.
    fn served(&self, call: u64, name: &[u8]) -> Option<&[u8]>
        ensures { option_copied result
            ≡ (if fails_at self.now.failing call then None else held_by self.now.files name.now) }
    {
        if self.failing.as_slice().contains(&call) {
            return None;
        }
        held_by(self.files.as_slice(), name)
    }
}

impl Files for MemFiles {
    ghost holds = { λ store name. held_by store.files name };

    ghost faults = { λ store. store.faults };

    ghost failed = { λ store. store.failed };

    fn read(&mut self, alloc: Global, name: &Name, limit: u64) -> Result<Vec<u8>, FileError>
        ensures within { IfOk result (λ bytes. length bytes.items ≤ limit) }
        ensures bytes { IfSome (held_by self.old.files name.now.bytes)
            (λ file. IfOk result (λ bytes. bytes.items ≡ take limit file)) }
        ensures same { (other : List ℕ) → held_by self.new.files other ≡ held_by self.old.files other }
        ensures cause { HasCause self.old.faults self.new.faults (is_fault result) }
        ensures named { self.new.failed
            ≡ (if is_fault result then Some name.now.bytes else self.old.failed) }
        // It fails where it has to, and only there.
        ensures fails { IfNone (served self.old name.now.bytes) (IsErr result) }
        ensures serves { OnSome (served self.old name.now.bytes) (is_fault result ≡ false) }
        ensures after { self.new ≡ after_read self.old name.now.bytes (is_fault result) }
    {
        self.calls = counted(self.calls);
        // Before anything is looked at, so that a fault can be told with its name.
        let asked = Sequence::from_slice(alloc, name.bytes.as_slice())?;
        if let Some(file) = self.served(self.calls, name.bytes.as_slice()) {
            return Ok(first_bytes(alloc, file, limit)?);
        }
        self.faults = counted(self.faults);
        self.failed = Some(asked);
        Err(FileError::Failed)
    }
}
