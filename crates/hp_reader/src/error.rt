// Why bytes are no script that fits.

use hp_script::rule::Refusal;
use thiserror::Error;

/// Why bytes are no script that fits.
#[derive(Clone, Copy, Debug, PartialEq, Eq, Error)]
pub enum ReadError {
    /// The bytes are refused.
    #[error(transparent)]
    Refused(Refusal),
    /// Memory was refused.
    #[error("out of memory")]
    NoMemory,
}
