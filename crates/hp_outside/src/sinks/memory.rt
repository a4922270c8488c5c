// A sink in memory, whose calls fail where they are told to.

ghost use Rattle.std.specs.Prelude.{◌≡◌, ◌<◌, ◌≤◌, ◌+◌, ◌&&◌, [], Some, not, nat_le, length, take, is_ok, is_err, IfOk, OnErr};
ghost use Rattle.hp_outside.specs.Outside.{HasCause, Grew};
ghost use Rattle.hp_outside.specs.Memory.{fails_at, takes, after_put};

use super::{Failed, Sink};
use crate::counts::counted;
use hp_word::place::NoMemory;
use hp_word::sequence::Sequence;
use std::alloc::Global;
use std::marker::Model;

/// A sink in memory with room for so many bytes. It takes a whole piece or nothing. A call whose number
/// is told fails, as does one that has no room for its piece.
#[derive(Drop)]
pub struct MemSink {
    written: Vec<u8>,
    room: usize,
    failing: Sequence<u64>,
    calls: u64,
    faults: u64,
}

impl Model for MemSink {
    ghost use Rattle.std.specs.Prelude.{◌≤◌, length, vec_capacity};
    ghost use Rattle.hp_outside.specs.Memory.{SinkState};

    ghost Value = { SinkState };

    ghost view = { λ sink. record {
      written = sink.written.items;
      room = sink.room;
      failing = sink.failing;
      calls = sink.calls;
      faults = sink.faults;
    } };

    ghost invariant = { λ sink. (length sink.written.items ≤ sink.room) × (sink.room ≤ vec_capacity sink.written) };
}

impl MemSink {
    /// A sink with room for `room` bytes, which it reserves. The calls whose numbers, from 1, stand in
    /// `failing` fail.
    pub fn new(alloc: Global, room: usize, failing: Vec<u64>) -> Result<MemSink, NoMemory>
        ensures written { IfOk result (λ sink. sink.written ≡ []) }
        ensures room { IfOk result (λ sink. sink.room ≡ room) }
        ensures failing { IfOk result (λ sink. sink.failing ≡ failing.items) }
        ensures calls { IfOk result (λ sink. sink.calls ≡ 0) }
        ensures faults { IfOk result (λ sink. sink.faults ≡ 0) }
    {
        Ok(MemSink {
            written: Vec::with_capacity(alloc, room)?,
            room,
            failing: Sequence::from_vec(failing),
            calls: 0,
            faults: 0,
        })
    }

    /// The bytes that it took.
    pub fn bytes(&self) -> &[u8]
        ensures { result.now ≡ self.now.written }
    {
        self.written.as_slice()
    }

    /// How many calls failed.
    pub fn fault_count(&self) -> u64
        ensures { result ≡ self.now.faults }
    {
        self.faults
    }

    // Whether the call of this number takes a piece.
    fn has_place(&self, call: u64, piece: &[u8]) -> bool
        ensures { result
            ≡ (not (fails_at self.now.failing call) && nat_le (length self.now.written + length piece.now) self.now.room) }
    {
        !self.failing.as_slice().contains(&call) && piece.len() <= self.room - self.written.len()
    }
}

impl Sink for MemSink {
    ghost written = { λ sink. Some sink.written };

    ghost faults = { λ sink. sink.faults };

    fn put(&mut self, piece: &[u8]) -> Result<usize, Failed>
        ensures within { IfOk result (λ taken. taken ≤ length piece.now) }
        ensures progress { IfOk result (λ taken. 0 < length piece.now → 0 < taken) }
        ensures took { IfOk result
            (λ taken. Grew (Some self.old.written) (Some self.new.written) (take taken piece.now)) }
        ensures nothing { OnErr result (Some self.new.written ≡ Some self.old.written) }
        ensures cause { HasCause self.old.faults self.new.faults (is_err result) }
        // It takes the whole piece where it has to, and only there.
        ensures takes { is_ok result ≡ takes self.old piece.now }
        ensures whole { IfOk result (λ taken. taken ≡ length piece.now) }
        ensures after { self.new ≡ after_put self.old piece.now }
    {
        let call = counted(self.calls);
        let takes = self.has_place(call, piece);
        self.calls = call;
        if takes && self.written.extend_from_slice(piece).is_ok() {
            return Ok(piece.len());
        }
        self.faults = counted(self.faults);
        Err(Failed)
    }
}
