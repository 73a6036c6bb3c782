//! Why there is no going back to a savepoint.

use std::alloc::AllocError;
use thiserror::Error;

/// Why there is no going back to a savepoint. All savepoints stand as before.
#[derive(Clone, Copy, Debug, PartialEq, Eq, Error)]
pub enum SavepointError {
    /// There are not so many savepoints.
    #[error("there is no savepoint {number}")]
    NoSavepoint {
        /// The number that was asked for.
        number: u64,
    },
    /// There is no memory.
    #[error("out of memory")]
    Memory,
}

impl From<AllocError> for SavepointError {
    ghost use Rattle.std.specs.Prelude.{◌≡◌};
    ghost use Rattle.savepoints.specs.declared.error.SavepointError.TheVariants.{Memory};

    ghost from_gives = { λ _ error. error ≡ Memory };

    fn from(_error: AllocError) -> SavepointError {
        SavepointError::Memory
    }
}
