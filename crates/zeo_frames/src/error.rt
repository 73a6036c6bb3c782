//! Why no more frames are read.

use thiserror::Error;

/// Why no more frames are read from a stream.
#[derive(Clone, Copy, Debug, PartialEq, Eq, Error)]
pub enum FrameError {
    /// A frame says that its payload is longer than [`FRAME_LIMIT`](crate::FRAME_LIMIT).
    #[error("a frame of {length} bytes, which is above the limit")]
    FrameTooLong {
        /// The length that it says, in bytes.
        length: u32,
    },
    /// There was no memory for what came.
    #[error("out of memory")]
    Memory,
}
