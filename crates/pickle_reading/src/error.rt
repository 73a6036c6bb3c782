//! Why nothing was read.

use pickle_ops::TokenError;
use std::alloc::{AllocError, AllocFailed};
use thiserror::Error;

/// Why no graph, or no references, were read. `at` is the place of an opcode in the input. Nothing is
/// left of what was read.
#[derive(Clone, Copy, Debug, PartialEq, Eq, Error)]
pub enum PickleError {
    /// No token stands where one has to.
    #[error(transparent)]
    Token(TokenError),
    /// The stack does not hold what the opcode at `at` takes.
    #[error("the opcode at {at} takes what the stack does not hold")]
    Stack { at: usize },
    /// The opcode at `at` gets a number from the memo under which nothing was put.
    #[error("the opcode at {at} gets what was not put")]
    Memo { at: usize },
    /// The opcode at `at` would make one node too many.
    #[error("the opcode at {at} makes one node too many")]
    TooLarge { at: usize },
    /// The persistent id of the opcode at `at` is none that references have. Reading a graph alone
    /// does not answer this.
    #[error("the reference at {at} has a bad id")]
    BadReference { at: usize },
    /// There was no memory.
    #[error("no memory is left")]
    Memory,
}

impl From<TokenError> for PickleError {
    ghost use Rattle.std.specs.Prelude.{◌≡◌};
    ghost use Rattle.pickle_reading.specs.declared.error.PickleError.TheVariants.{Token};

    ghost from_gives = { λ e f. f ≡ Token e };

    fn from(e: TokenError) -> PickleError {
        PickleError::Token(e)
    }
}

impl From<AllocError> for PickleError {
    ghost use Rattle.std.specs.Prelude.{◌≡◌};
    ghost use Rattle.pickle_reading.specs.declared.error.PickleError.TheVariants.{Memory};

    ghost from_gives = { λ _ e. e ≡ Memory };

    fn from(_e: AllocError) -> PickleError {
        PickleError::Memory
    }
}

impl<T: Drop> From<AllocFailed<T>> for PickleError {
    ghost use Rattle.std.specs.Prelude.{◌≡◌};
    ghost use Rattle.pickle_reading.specs.declared.error.PickleError.TheVariants.{Memory};

    ghost from_gives = { λ _ e. e ≡ Memory };

    fn from(_e: AllocFailed<T>) -> PickleError {
        PickleError::Memory
    }
}
