//! Why a session on a link is over.

/// Why a session on a link is over.
#[derive(Clone, Copy, Debug, PartialEq, Eq)]
pub enum SessionEnd {
    /// The link ended.
    Ended,
    /// A read of the link or a write to it failed.
    LinkFault,
    /// A payload is no message of a client.
    BadMessage,
    /// A frame says that its payload is longer than the limit.
    FrameTooLong,
    /// There was no memory.
    Memory,
}
