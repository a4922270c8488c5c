// Lengths of arrays.

ghost use Rattle.std.specs.Prelude.{◌≡◌};
ghost use Rattle.hp_word.specs.Lengths.{length_of};

use crate::place::{Place, Trap, TrapKind};

/// The most elements that an array has.
pub const LONGEST: u64 = 1_048_576;

/// The length that a word asks for; `BadLength` below 0 and `TooLong` past `LONGEST`, at the place given.
pub fn length_of(at: Place, word: i64) -> Result<u64, Trap>
    ensures { result ≡ length_of at word }
{
    if word < 0 {
        return Err(Trap {
            at,
            kind: TrapKind::BadLength,
        });
    }
    let length = word as u64;
    if length > LONGEST {
        return Err(Trap {
            at,
            kind: TrapKind::TooLong,
        });
    }
    Ok(length)
}
