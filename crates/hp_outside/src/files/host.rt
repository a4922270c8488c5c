// The files of the machine that the program runs on. What they hold is not told.

ghost use Rattle.std.specs.Prelude.{◌≤◌, None, length, IfOk};
ghost use Rattle.hp_outside.specs.Counts.{counted};

use super::{FileError, Files};
use crate::counts::counted;
use hp_word::name::Name;
use hp_word::sequence::Sequence;
use std::alloc::{AllocError, Global};
use std::io::{self, ErrorKind, Read};
use std::{fs, rt};

// How many bytes one read asks for at most.
const READ_SIZE: usize = 65_536;

/// The files of the machine. A name is the text of a path, in UTF-8.
#[derive(Drop)]
pub struct HostFiles<R> {
    host: R,
    faults: u64,
    failed: Option<Sequence<u8>>,
}

impl<R: rt::Files> HostFiles<R> {
    /// The files of the runtime that `main` has.
    pub fn new(host: R) -> HostFiles<R> {
        HostFiles {
            host,
            faults: 0,
            failed: None,
        }
    }
}

// What an error of the machine is to the program.
fn error_of(error: &io::Error) -> FileError {
    match error.kind() {
        ErrorKind::OutOfMemory => FileError::NoMemory,
        _ => FileError::Failed,
    }
}

// A buffer of zeros.
fn buffer(alloc: Global, size: usize) -> Result<Vec<u8>, AllocError> {
    vec![in alloc; 0u8; size]
}

// Reads to the end of a file or to `limit` bytes, whichever comes first, through a buffer that is not empty.
fn read_front<F: Read>(
    alloc: Global,
    file: &mut F,
    buffer: &mut [u8],
    limit: u64,
) -> Result<Vec<u8>, FileError>
    ensures { IfOk result (λ bytes. length bytes.items ≤ limit) }
{
    let mut bytes = Vec::new(alloc);
    for _ in 0..u64::MAX {
        let rest = limit - bytes.len() as u64;
        let size = rest.min(buffer.len() as u64) as usize;
        if size == 0 {
            return Ok(bytes);
        }
        match file.read(&mut buffer[..size]) {
            Ok(0) => return Ok(bytes),
            Ok(count) => bytes.extend_from_slice(&buffer[..count])?,
            Err(error) => {
                if error.kind() != ErrorKind::Interrupted {
                    return Err(error_of(&error));
                }
            }
        }
    }
    Err(FileError::Failed)
}

// Reads the front of the file of a name.
fn read_file<R: rt::Files>(
    host: &R,
    alloc: Global,
    name: &[u8],
    limit: u64,
) -> Result<Vec<u8>, FileError>
    ensures { IfOk result (λ bytes. length bytes.items ≤ limit) }
{
    let Ok(path) = std::str::from_utf8(name) else {
        return Err(FileError::Failed);
    };
    let mut buffer = buffer(alloc, READ_SIZE)?;
    match fs::open(host, path) {
        Ok(mut file) => read_front(alloc, &mut file, buffer.as_mut_slice(), limit),
        Err(error) => Err(error_of(&error)),
    }
}

impl<R: rt::Files> Files for HostFiles<R> {
    ghost holds = { λ _ _. None };

    ghost faults = { λ it. it.faults };

    ghost failed = { λ it. it.failed };

    fn read(&mut self, alloc: Global, name: &Name, limit: u64) -> Result<Vec<u8>, FileError> {
        let asked = Sequence::from_slice(alloc, name.bytes.as_slice())?;
        let answer = read_file(&self.host, alloc, name.bytes.as_slice(), limit);
        if let Err(FileError::Failed) = &answer {
            self.faults = counted(self.faults);
            self.failed = Some(asked);
        }
        answer
    }
}
