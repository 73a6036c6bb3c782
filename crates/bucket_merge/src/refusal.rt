//! Why there is no merge.

use btree_family::Key;
use std::alloc::{AllocError, AllocFailed};
use thiserror::Error;

/// Why there is no merge. Nothing is changed.
#[derive(Debug, Drop, Error)]
pub enum MergeRefusal {
    /// The three buckets aren't followed by the same bucket.
    #[error("the three are not followed by the same bucket")]
    Link,
    /// Nothing is left on one of the sides.
    #[error("nothing is left on one of the sides")]
    EmptySide,
    /// Both sides changed this key, which is the least of such.
    #[error("both sides changed the key {0:?}")]
    Key(Key),
    /// The first key isn't there on one of the sides.
    #[error("the first key is gone on one of the sides")]
    FirstKey,
    /// There was no memory.
    #[error("no memory is left")]
    Memory,
}

impl From<AllocError> for MergeRefusal {
    ghost use Rattle.std.specs.Prelude.{◌≡◌};
    ghost use Rattle.bucket_merge.specs.declared.refusal.MergeRefusal.TheVariants.{Memory};

    ghost from_gives = { λ _ e. e ≡ Memory };

    fn from(_e: AllocError) -> MergeRefusal {
        MergeRefusal::Memory
    }
}

impl<T: Drop> From<AllocFailed<T>> for MergeRefusal {
    ghost use Rattle.std.specs.Prelude.{◌≡◌};
    ghost use Rattle.bucket_merge.specs.declared.refusal.MergeRefusal.TheVariants.{Memory};

    ghost from_gives = { λ _ e. e ≡ Memory };

    fn from(_e: AllocFailed<T>) -> MergeRefusal {
        MergeRefusal::Memory
    }
}
