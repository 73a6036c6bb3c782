//! Why nothing comes from a server.

use std::alloc::AllocError;
use thiserror::Error;
use zeo_frames::FrameError;
use zeo_reading::MessageError;

/// Why nothing comes from a server, or nothing goes to it.
#[derive(Clone, Copy, Debug, PartialEq, Eq, Error)]
pub enum ClientError {
    /// A frame says that its payload is longer than a frame's may be.
    #[error("a frame of {length} bytes, which is above the limit")]
    FrameTooLong {
        /// The length that it says, in bytes.
        length: u32,
    },
    /// A payload is no message of a server, or answers another call than the last one.
    #[error("a payload that is no answer to the last call")]
    BadMessage,
    /// A call of the link failed.
    #[error("the link failed")]
    LinkFault,
    /// The link has ended.
    #[error("the link has ended")]
    Closed,
    /// There was no memory.
    #[error("out of memory")]
    Memory,
}

impl From<AllocError> for ClientError {
    ghost use Rattle.std.specs.Prelude.{◌≡◌};
    ghost use Rattle.zeo_client.specs.declared.error.ClientError.TheVariants.{Memory};

    ghost from_gives = { λ _ error. error ≡ Memory };

    fn from(_error: AllocError) -> ClientError {
        ClientError::Memory
    }
}

impl From<FrameError> for ClientError {
    ghost use Rattle.std.specs.Prelude.{◌≡◌};
    ghost use Rattle.zeo_client.specs.Errors.{of_frame};

    ghost from_gives = { λ frame error. error ≡ of_frame frame };

    fn from(error: FrameError) -> ClientError {
        match error {
            FrameError::FrameTooLong { length } => ClientError::FrameTooLong { length },
            FrameError::Memory => ClientError::Memory,
        }
    }
}

impl From<MessageError> for ClientError {
    ghost use Rattle.std.specs.Prelude.{◌≡◌};
    ghost use Rattle.zeo_client.specs.Errors.{of_message};

    ghost from_gives = { λ message error. error ≡ of_message message };

    fn from(error: MessageError) -> ClientError {
        match error {
            MessageError::BadMessage => ClientError::BadMessage,
            MessageError::Memory => ClientError::Memory,
        }
    }
}
