// Why a script was not checked.

ghost use Rattle.std.specs.Prelude.{◌≡◌};
ghost use Rattle.hp_script.specs.Breaks.{unless};
ghost use Rattle.hp_types.specs.Answers.{Passes};
ghost use Rattle.hp_types.specs.declared.error.CheckError.TheVariants.{Refused, NoMemory};

use hp_script::rule::{Refusal, Rule};
use hp_word::place::Place;
use std::alloc::{AllocError, AllocFailed};
use thiserror::Error;

/// Why a script was not checked.
#[derive(Clone, Copy, Debug, PartialEq, Eq, Error)]
pub enum CheckError {
    /// A rule breaks.
    #[error("{}:{}: {}", .0.at.line, .0.at.col, .0.rule)]
    Refused(Refusal),
    /// Memory was refused.
    #[error("out of memory")]
    NoMemory,
}

impl From<AllocError> for CheckError {
    ghost from_gives = { λ _ e. e ≡ NoMemory };

    fn from(_error: AllocError) -> CheckError {
        CheckError::NoMemory
    }
}

impl<T: Drop> From<AllocFailed<T>> for CheckError {
    ghost from_gives = { λ _ e. e ≡ NoMemory };

    fn from(_error: AllocFailed<T>) -> CheckError {
        CheckError::NoMemory
    }
}

impl From<hp_word::place::NoMemory> for CheckError {
    ghost from_gives = { λ _ e. e ≡ NoMemory };

    fn from(_error: hp_word::place::NoMemory) -> CheckError {
        CheckError::NoMemory
    }
}

/// The refusal by a rule at a place.
pub fn broken(at: Place, rule: Rule) -> CheckError
    ensures { result ≡ Refused (record { at = at; rule = rule }) }
{
    CheckError::Refused(Refusal { at, rule })
}

/// Refuses by a rule at a place, unless the test passes.
pub fn demand(passes: bool, at: Place, rule: Rule) -> Result<(), CheckError>
    ensures { Passes (unless passes at rule) result }
{
    if passes {
        Ok(())
    } else {
        Err(broken(at, rule))
    }
}
