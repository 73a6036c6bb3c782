//! How long a payload may be.

/// The greatest length of a frame's payload: 24 MiB, in bytes.
pub const FRAME_LIMIT: u32 = 25_165_824;
