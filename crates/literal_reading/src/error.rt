//! Why no literal was read.

use std::alloc::{AllocError, AllocFailed};
use thiserror::Error;

/// Why no literal was read. Nothing is left of what was read.
#[derive(Clone, Copy, Debug, PartialEq, Eq, Error)]
pub enum LiteralError {
    /// There is not enough memory, or the literal has more nodes than a graph, which are 2^32 - 1.
    #[error("no memory is left")]
    Memory,
    /// The bytes are not the one spelling of a value, or a walk of more than 200 edges starts at the value.
    #[error("not a literal")]
    NotLiteral,
}

impl From<AllocError> for LiteralError {
    ghost use Rattle.std.specs.Prelude.{◌≡◌};
    ghost use Rattle.literal_reading.specs.declared.error.LiteralError.TheVariants.{Memory};

    ghost from_gives = { λ _ e. e ≡ Memory };

    fn from(_e: AllocError) -> LiteralError {
        LiteralError::Memory
    }
}

impl<T: Drop> From<AllocFailed<T>> for LiteralError {
    ghost use Rattle.std.specs.Prelude.{◌≡◌};
    ghost use Rattle.literal_reading.specs.declared.error.LiteralError.TheVariants.{Memory};

    ghost from_gives = { λ _ e. e ≡ Memory };

    fn from(_e: AllocFailed<T>) -> LiteralError {
        LiteralError::Memory
    }
}
