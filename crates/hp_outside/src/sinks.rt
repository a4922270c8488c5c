// Sinks that take bytes.

ghost use Rattle.std.specs.Prelude.{◌≡◌, ◌<◌, ◌≤◌, ℕ, List, Option, length, take, is_err, IfOk, OnOk, OnErr, map};
ghost use Rattle.std.specs.List.{concat};
ghost use Rattle.hp_outside.specs.Outside.{HasCause, Grew};

pub mod host;
pub mod memory;

/// The outside failed.
#[derive(Clone, Copy, PartialEq, Eq)]
pub struct Failed;

/// A place that takes bytes, in order.
pub trait Sink {
    /// All the bytes that it took, `None` where they are not told.
    ghost written: { Self → Option (List ℕ) };

    /// How many faults there were. It never falls.
    ghost faults: { Self → ℕ };

    /// Takes the first bytes of a piece, at least one where there is one, and answers how many.
    /// `Failed`: it took nothing.
    fn put(&mut self, piece: &[u8]) -> Result<usize, Failed>
        ensures within { IfOk result (λ taken. taken ≤ length piece.now) }
        ensures progress { IfOk result (λ taken. 0 < length piece.now → 0 < taken) }
        ensures took { IfOk result
            (λ taken. Grew (written self.old) (written self.new) (take taken piece.now)) }
        ensures nothing { OnErr result (written self.new ≡ written self.old) }
        ensures cause { HasCause (faults self.old) (faults self.new) (is_err result) };
}

/// Puts all of the bytes. `Failed`: the sink took a part that is shorter.
#[tactic(auto, using(crate::proofs::Growth::grown_nothing))]
pub fn put_all<S: Sink>(sink: &mut S, bytes: &[u8]) -> Result<(), Failed>
    ensures all { OnOk result (Grew (S.written sink.old) (S.written sink.new) bytes.now) }
    ensures part { OnErr result ((taken : ℕ) × (taken < length bytes.now)
        × Grew (S.written sink.old) (S.written sink.new) (take taken bytes.now)) }
    ensures cause { HasCause (S.faults sink.old) (S.faults sink.new) (is_err result) }
{
    let mut at = 0;
    while at < bytes.len() {
        let taken = sink.put(&bytes[at..])?;
        at += taken;
    }
    Ok(())
}

/// Puts pieces one behind the other. `Failed`: the sink took a part that is shorter.
pub fn put_pieces<S: Sink>(sink: &mut S, pieces: &[&[u8]]) -> Result<(), Failed>
    ensures all { OnOk result (Grew (S.written sink.old) (S.written sink.new) (concat (map (λ piece. piece.now) pieces.now))) }
    ensures part { OnErr result ((taken : ℕ) × (taken < length (concat (map (λ piece. piece.now) pieces.now)))
        × Grew (S.written sink.old) (S.written sink.new) (take taken (concat (map (λ piece. piece.now) pieces.now)))) }
    ensures cause { HasCause (S.faults sink.old) (S.faults sink.new) (is_err result) }
{
    for piece in pieces {
        put_all(sink, piece)?;
    }
    Ok(())
}
