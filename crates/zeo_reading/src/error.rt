//! Why there is no message.

use std::alloc::AllocError;
use thiserror::Error;

/// Why there is no message.
#[derive(Clone, Copy, Debug, PartialEq, Eq, Error)]
pub enum MessageError {
    /// The payload is no message.
    #[error("the payload is no message")]
    BadMessage,
    /// There was no memory for it.
    #[error("out of memory")]
    Memory,
}

impl From<AllocError> for MessageError {
    ghost use Rattle.std.specs.Prelude.{◌≡◌};
    ghost use Rattle.zeo_reading.specs.declared.error.MessageError.TheVariants.{Memory};

    ghost from_gives = { λ _ e. e ≡ Memory };

    fn from(_error: AllocError) -> MessageError {
        MessageError::Memory
    }
}
