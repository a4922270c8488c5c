// Why there is no program for ranks.

ghost use Rattle.std.specs.Prelude.{◌≡◌};
ghost use Rattle.hp_compile.specs.declared.error.CompileError.TheVariants as errors;

use hp_script::rule::Refusal;
use hp_word::place::{NoMemory, Place};
use thiserror::Error;

/// Why there is no program for ranks.
#[derive(Clone, Copy, Debug, PartialEq, Eq, Error)]
pub enum CompileError {
    /// The bytes are no script that fits.
    #[error(transparent)]
    Refused(Refusal),
    /// At this place of the script stands a construct that ranks cannot run yet.
    #[error("not built for ranks")]
    NotBuilt(Place),
    /// Memory was refused.
    #[error("out of memory")]
    NoMemory,
}

impl From<NoMemory> for CompileError {
    ghost from_gives = { λ _ e. e ≡ errors.NoMemory };

    fn from(_error: NoMemory) -> CompileError {
        CompileError::NoMemory
    }
}
