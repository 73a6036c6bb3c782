//! Why transactions aren't undone.

ghost use Rattle.std.specs.Prelude.{◌≡◌};
ghost use Rattle.undo_records.specs.declared.refusal.UndoRefusal.TheVariants.{Memory};

use std::alloc::AllocError;
use thiserror::Error;
use zb_ids::{Oid, Tid};
use zb_model::StoreError;

/// Why transactions aren't undone. Nothing is changed but the store's count of failed reads.
#[derive(Clone, Copy, Debug, PartialEq, Eq, Error)]
pub enum UndoRefusal {
    /// No transaction of the list has the tid.
    #[error("no transaction has the tid {:016x}", tid.0)]
    UndoUnknown {
        /// The tid.
        tid: Tid,
    },
    /// A pack has gone over the transaction.
    #[error("the transaction {:016x} is packed", tid.0)]
    UndoPacked {
        /// Its tid.
        tid: Tid,
    },
    /// An object was changed since, and the changes can't be merged.
    #[error("the object {:016x} was changed since, last by {:016x}", oid.0, later.0)]
    UndoConflict {
        /// The object.
        oid: Oid,
        /// The serial of its last revision.
        later: Tid,
    },
    /// Reading the store failed.
    #[error("reading the store failed")]
    ReadFault,
    /// There is no memory.
    #[error("out of memory")]
    Memory,
}

impl From<AllocError> for UndoRefusal {
    ghost from_gives = { λ _ refusal. refusal ≡ Memory };

    fn from(_error: AllocError) -> UndoRefusal {
        UndoRefusal::Memory
    }
}

impl From<StoreError> for UndoRefusal {
    ghost use Rattle.undo_records.specs.Outcomes.{unread_refusal};

    ghost from_gives = { λ error refusal. refusal ≡ unread_refusal error };

    fn from(error: StoreError) -> UndoRefusal {
        match error {
            StoreError::Memory => UndoRefusal::Memory,
            StoreError::ReadFault => UndoRefusal::ReadFault,
            StoreError::StoreFault => UndoRefusal::ReadFault,
        }
    }
}
