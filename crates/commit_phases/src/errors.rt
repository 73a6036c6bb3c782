//! Why a change can't wait for a vote, and why a vote is refused.

use std::alloc::AllocError;
use thiserror::Error;
use zb_ids::{Oid, Tid};
use zb_model::{StoreError, Why};

/// Why a store can't wait for a vote. The pending changes are as before.
#[derive(Clone, Copy, Debug, PartialEq, Eq, Error)]
pub enum PendingError {
    /// The bytes pass a limit.
    #[error("{length} bytes pass the limit")]
    TooLong {
        /// How many bytes the object has, where they pass its limit, else how many all stores have.
        length: u64,
    },
    /// There is no memory.
    #[error("out of memory")]
    Memory,
}

impl From<AllocError> for PendingError {
    ghost use Rattle.std.specs.Prelude.{◌≡◌};
    ghost use Rattle.commit_phases.specs.declared.errors.PendingError.TheVariants.{Memory};

    ghost from_gives = { λ _ error. error ≡ Memory };

    fn from(_error: AllocError) -> PendingError {
        PendingError::Memory
    }
}

/// Why a vote is refused. Nothing is changed but the store's count of failed reads.
#[derive(Debug, Drop)]
pub enum VoteRefusal {
    /// The base of a store or delete isn't the object's current serial, and the changes can't be merged; a
    /// delete never is.
    Conflict {
        /// The object.
        oid: Oid,
        /// The serial that the store or delete was made from.
        base: Tid,
        /// The object's serial now, or 0 where it has none.
        current: Tid,
        /// Why they can't be merged.
        why: Why,
    },
    /// An object that is to be deleted isn't there.
    NothingToDelete {
        /// The object.
        oid: Oid,
        /// The serial of its last revision, or 0 where it has none.
        current: Tid,
    },
    /// A checked serial isn't the object's current one.
    ReadConflict {
        /// The object.
        oid: Oid,
        /// The serial that was checked.
        base: Tid,
        /// The object's serial now, or 0 where it has none.
        current: Tid,
    },
    /// The bytes that go in pass a limit.
    TooLong {
        /// How many bytes the first object has that passes its limit, else how many all have.
        length: u64,
    },
    /// Reading the store failed.
    ReadFault,
    /// There is no memory.
    Memory,
}

impl From<AllocError> for VoteRefusal {
    ghost use Rattle.std.specs.Prelude.{◌≡◌};
    ghost use Rattle.commit_phases.specs.declared.errors.VoteRefusal.TheVariants.{Memory};

    ghost from_gives = { λ _ error. error ≡ Memory };

    fn from(_error: AllocError) -> VoteRefusal {
        VoteRefusal::Memory
    }
}
