//! Why no session is opened.

use std::alloc::AllocError;
use thiserror::Error;

/// Why no session is opened. The hub is as it was.
#[derive(Clone, Copy, Debug, PartialEq, Eq, Error)]
pub enum SessionRefusal {
    /// There were 64 sessions already.
    #[error("{count} sessions were opened already")]
    TooManySessions {
        /// How many there were.
        count: u32,
    },
    /// The history of all sessions has 2^64-1 entries. A hub by itself never answers it.
    #[error("the history is full")]
    StepsSpent,
    /// There is no memory.
    #[error("out of memory")]
    Memory,
}

impl From<AllocError> for SessionRefusal {
    ghost use Rattle.std.specs.Prelude.{◌≡◌};
    ghost use Rattle.zodb_core.specs.declared.errors.SessionRefusal.TheVariants.{Memory};

    ghost from_gives = { λ _ error. error ≡ Memory };

    fn from(_error: AllocError) -> SessionRefusal {
        SessionRefusal::Memory
    }
}
