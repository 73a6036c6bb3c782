//! Why a turn of a pack is refused.

ghost use Rattle.std.specs.Prelude.{◌≡◌};
ghost use Rattle.pack_reach.specs.declared.refusal.PackRefusal.TheVariants.{Memory};

use std::alloc::AllocError;
use thiserror::Error;
use zb_ids::{Oid, Tid};
use zb_model::StoreError;

/// Why a turn of a pack is refused.
#[derive(Clone, Copy, Debug, PartialEq, Eq, Error)]
pub enum PackRefusal {
    /// A record that the reach follows can't be read. Of several, this is the one of the least object,
    /// then of the least serial.
    #[error("the record of the object {:016x} at {:016x} can't be read", oid.0, tid.0)]
    Unreadable {
        /// The object.
        oid: Oid,
        /// The serial of the record.
        tid: Tid,
    },
    /// Reading the store failed.
    #[error("reading the store failed")]
    ReadFault,
    /// There is no memory.
    #[error("out of memory")]
    Memory,
}

impl From<AllocError> for PackRefusal {
    ghost from_gives = { λ _ refusal. refusal ≡ Memory };

    fn from(_error: AllocError) -> PackRefusal {
        PackRefusal::Memory
    }
}

impl From<StoreError> for PackRefusal {
    ghost use Rattle.pack_reach.specs.Outcomes.{unread_refusal};

    ghost from_gives = { λ error refusal. refusal ≡ unread_refusal error };

    fn from(error: StoreError) -> PackRefusal {
        match error {
            StoreError::Memory => PackRefusal::Memory,
            StoreError::ReadFault => PackRefusal::ReadFault,
            StoreError::StoreFault => PackRefusal::ReadFault,
        }
    }
}
