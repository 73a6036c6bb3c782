//! Why bytes are no record.

use pickle_reading::PickleError;
use std::alloc::{AllocError, AllocFailed};
use thiserror::Error;

/// Why bytes are no record. Places count from the start of the record. Nothing is left of what was
/// read.
#[derive(Clone, Copy, Debug, PartialEq, Eq, Error)]
pub enum RecordError {
    /// One of the two pickles is refused. Its own want of memory is `Memory` here.
    #[error(transparent)]
    Pickle(PickleError),
    /// Bytes follow the second pickle, the first of them at `at`.
    #[error("bytes follow the state, from {at} on")]
    Rest { at: usize },
    /// The first pickle is neither a global nor a tuple that begins with one.
    #[error("the class is neither a global nor a tuple that begins with one")]
    BadClass,
    /// There was no memory.
    #[error("no memory is left")]
    Memory,
}

impl From<PickleError> for RecordError {
    ghost use Rattle.std.specs.Prelude.{◌≡◌};
    ghost use Rattle.zb_record.specs.Refusals.{refusal_of};

    ghost from_gives = { λ e f. f ≡ refusal_of e };

    fn from(e: PickleError) -> RecordError {
        match e {
            PickleError::Memory => RecordError::Memory,
            e => RecordError::Pickle(e),
        }
    }
}

impl From<AllocError> for RecordError {
    ghost use Rattle.std.specs.Prelude.{◌≡◌};
    ghost use Rattle.zb_record.specs.declared.error.RecordError.TheVariants.{Memory};

    ghost from_gives = { λ _ e. e ≡ Memory };

    fn from(_e: AllocError) -> RecordError {
        RecordError::Memory
    }
}

impl<T: Drop> From<AllocFailed<T>> for RecordError {
    ghost use Rattle.std.specs.Prelude.{◌≡◌};
    ghost use Rattle.zb_record.specs.declared.error.RecordError.TheVariants.{Memory};

    ghost from_gives = { λ _ e. e ≡ Memory };

    fn from(_e: AllocFailed<T>) -> RecordError {
        RecordError::Memory
    }
}
