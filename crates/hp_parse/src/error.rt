// Why tokens were not parsed.

ghost use Rattle.std.specs.Prelude.{◌≡◌};
ghost use Rattle.hp_parse.specs.declared.error.ParseError.TheVariants.{NoMemory};

use hp_script::rule::Refusal;
use std::alloc::{AllocError, AllocFailed};
use thiserror::Error;

/// Why tokens were not parsed.
#[derive(Clone, Copy, Debug, PartialEq, Eq, Error)]
pub enum ParseError {
    /// The tokens are no script.
    #[error(transparent)]
    Refused(Refusal),
    /// Memory was refused.
    #[error("out of memory")]
    NoMemory,
}

impl From<AllocError> for ParseError {
    ghost from_gives = { λ _ e. e ≡ NoMemory };

    fn from(_error: AllocError) -> ParseError {
        ParseError::NoMemory
    }
}

impl<T: Drop> From<AllocFailed<T>> for ParseError {
    ghost from_gives = { λ _ e. e ≡ NoMemory };

    fn from(_error: AllocFailed<T>) -> ParseError {
        ParseError::NoMemory
    }
}

impl From<hp_word::place::NoMemory> for ParseError {
    ghost from_gives = { λ _ e. e ≡ NoMemory };

    fn from(_error: hp_word::place::NoMemory) -> ParseError {
        ParseError::NoMemory
    }
}
