//! Why no state was read.

use pickle_writing::WriteError;
use std::alloc::{AllocError, AllocFailed};
use thiserror::Error;

/// Why no state was read. Nothing is left of what was read.
#[derive(Clone, Copy, Debug, PartialEq, Eq, Error)]
pub enum StateError {
    /// The graph is no state of such an object.
    #[error("this is no state of such an object")]
    BadState,
    /// There was no memory.
    #[error("no memory is left")]
    Memory,
}

impl From<WriteError> for StateError {
    ghost use Rattle.std.specs.Prelude.{◌≡◌};
    ghost use Rattle.bucket_state.specs.Answers.{state_error};

    ghost from_gives = { λ e f. f ≡ state_error e };

    fn from(e: WriteError) -> StateError {
        match e {
            WriteError::TooDeep => StateError::BadState,
            WriteError::Memory => StateError::Memory,
        }
    }
}

impl From<AllocError> for StateError {
    ghost use Rattle.std.specs.Prelude.{◌≡◌};
    ghost use Rattle.bucket_state.specs.declared.error.StateError.TheVariants.{Memory};

    ghost from_gives = { λ _ e. e ≡ Memory };

    fn from(_e: AllocError) -> StateError {
        StateError::Memory
    }
}

impl<T: Drop> From<AllocFailed<T>> for StateError {
    ghost use Rattle.std.specs.Prelude.{◌≡◌};
    ghost use Rattle.bucket_state.specs.declared.error.StateError.TheVariants.{Memory};

    ghost from_gives = { λ _ e. e ≡ Memory };

    fn from(_e: AllocFailed<T>) -> StateError {
        StateError::Memory
    }
}
