// A writer of the machine that the program runs on, as a sink. What it took is not told.

ghost use Rattle.std.specs.Prelude.{◌<◌, ◌≤◌, None, length, IfOk};
ghost use Rattle.hp_outside.specs.Counts.{counted};

use super::{Failed, Sink};
use crate::counts::counted;
use std::io::{ErrorKind, Write};

/// A writer as a sink. It must keep no bytes back, since nothing flushes it.
#[derive(Drop)]
pub struct HostSink<W> {
    writer: W,
    faults: u64,
}

impl<W: Write> HostSink<W> {
    /// The sink that a writer is.
    pub fn new(writer: W) -> HostSink<W> {
        HostSink { writer, faults: 0 }
    }

    /// The writer.
    pub fn into_writer(self) -> W {
        self.writer
    }
}

// Writes the first bytes of a piece, at least one where there is one.
fn write_front<W: Write>(writer: &mut W, piece: &[u8]) -> Result<usize, Failed>
    ensures within { IfOk result (λ taken. taken ≤ length piece.now) }
    ensures progress { IfOk result (λ taken. 0 < length piece.now → 0 < taken) }
{
    if piece.is_empty() {
        return Ok(0);
    }
    for _ in 0..u64::MAX {
        match writer.write(piece) {
            Ok(0) => return Err(Failed),
            Ok(taken) => return Ok(taken),
            Err(error) => {
                if error.kind() != ErrorKind::Interrupted {
                    return Err(Failed);
                }
            }
        }
    }
    Err(Failed)
}

impl<W: Write> Sink for HostSink<W> {
    ghost written = { λ _. None };

    ghost faults = { λ it. it.faults };

    fn put(&mut self, piece: &[u8]) -> Result<usize, Failed> {
        let answer = write_front(&mut self.writer, piece);
        if answer.is_err() {
            self.faults = counted(self.faults);
        }
        answer
    }
}
