//! Why a turn isn't answered.

use std::alloc::AllocError;
use thiserror::Error;

/// Why a turn isn't answered, and the run ends there.
#[derive(Clone, Copy, Debug, PartialEq, Eq, Error)]
pub enum TurnError {
    /// There is no memory. The list is as it was, unless only the answer couldn't be made.
    #[error("out of memory")]
    Memory,
    /// A write, cut, sync or replace of the volume failed: every session is closed, and the volume is to be
    /// opened again.
    #[error("the store failed")]
    StoreFault,
}

impl From<AllocError> for TurnError {
    ghost use Rattle.std.specs.Prelude.{◌≡◌};
    ghost use Rattle.client_turns.specs.declared.errors.TurnError.TheVariants.{Memory};

    ghost from_gives = { λ _ error. error ≡ Memory };

    fn from(_error: AllocError) -> TurnError {
        TurnError::Memory
    }
}
