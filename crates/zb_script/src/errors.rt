//! Why something could not be read.

ghost use Rattle.std.specs.Prelude.{◌≡◌};
ghost use Rattle.zb_script.specs.declared.errors.ReadError.TheVariants.{Memory};
ghost use Rattle.zb_script.specs.declared.errors.ScriptError.TheVariants.{Memory as memory};

use crate::limits::Limit;
use std::alloc::{AllocError, AllocFailed};
use thiserror::Error;

#[derive(Clone, Copy, Debug, PartialEq, Eq)]
pub(crate) enum ReadError {
    Memory,
    Bad,
}

impl From<AllocError> for ReadError {
    ghost from_gives = { λ _ e. e ≡ Memory };

    fn from(_e: AllocError) -> ReadError {
        ReadError::Memory
    }
}

impl<T: Drop> From<AllocFailed<T>> for ReadError {
    ghost from_gives = { λ _ e. e ≡ Memory };

    fn from(_e: AllocFailed<T>) -> ReadError {
        ReadError::Memory
    }
}

/// Why a script could not be read. Nothing is left of what was read.
#[derive(Clone, Copy, Debug, PartialEq, Eq, Error)]
pub enum ScriptError {
    /// There is not enough memory.
    #[error("out of memory")]
    Memory,
    /// The script passes a limit, the first of them.
    #[error(transparent)]
    Limit(
        /// The limit.
        Limit,
    ),
    /// A line that is none, or that can't stand in its place.
    #[error("line {number} is bad")]
    BadLine {
        /// The first such line, counted from 1.
        number: u64,
    },
}

impl From<AllocError> for ScriptError {
    ghost from_gives = { λ _ e. e ≡ memory };

    fn from(_e: AllocError) -> ScriptError {
        ScriptError::Memory
    }
}

impl<T: Drop> From<AllocFailed<T>> for ScriptError {
    ghost from_gives = { λ _ e. e ≡ memory };

    fn from(_e: AllocFailed<T>) -> ScriptError {
        ScriptError::Memory
    }
}
