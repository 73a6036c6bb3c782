//! Why a message is not taken.

use std::alloc::AllocError;
use thiserror::Error;

/// Why a message is not taken. The desk is as before.
#[derive(Clone, Copy, Debug, PartialEq, Eq, Error)]
pub enum DeskError {
    /// The payload is no message of a client: the session is over.
    #[error("the payload is no message of a client")]
    BadMessage,
    /// There was no memory for it.
    #[error("out of memory")]
    Memory,
}

impl From<AllocError> for DeskError {
    ghost use Rattle.std.specs.Prelude.{◌≡◌};
    ghost use Rattle.zeo_desk.specs.declared.error.DeskError.TheVariants.{Memory};

    ghost from_gives = { λ _ error. error ≡ Memory };

    fn from(_error: AllocError) -> DeskError {
        DeskError::Memory
    }
}
