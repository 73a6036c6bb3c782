//! Why a call on a tree is refused.

use std::alloc::{AllocError, AllocFailed};
use thiserror::Error;
use zb_ids::Oid;
use zb_model::Refusal;

/// Why a call on a tree is refused. The space is as it was, but where a call says what is left.
#[derive(Debug, Drop, Error)]
pub enum TreeError {
    /// An object on the way has no state of its kind in this tree, or stands twice on one way down.
    #[error("object {oid:?} is no part of such a tree")]
    NotATree {
        /// The object.
        oid: Oid,
    },
    /// The space has no content for an object on the way.
    #[error("object {oid:?} is missing")]
    NodeMissing {
        /// The object.
        oid: Oid,
    },
    /// The key or the value isn't of the tree's family, or the key isn't of the kind of the tree's keys.
    #[error("the key or the value is not one of the tree")]
    BadKey,
    /// The space refused, for a reason of its own.
    #[error("the space refuses")]
    Refused(Refusal),
    /// There was no memory.
    #[error("no memory is left")]
    Memory,
}

impl From<AllocError> for TreeError {
    ghost use Rattle.std.specs.Prelude.{◌≡◌};
    ghost use Rattle.btree_shapes.specs.declared.error.TreeError.TheVariants.{Memory};

    ghost from_gives = { λ _ e. e ≡ Memory };

    fn from(_e: AllocError) -> TreeError {
        TreeError::Memory
    }
}

impl<T: Drop> From<AllocFailed<T>> for TreeError {
    ghost use Rattle.std.specs.Prelude.{◌≡◌};
    ghost use Rattle.btree_shapes.specs.declared.error.TreeError.TheVariants.{Memory};

    ghost from_gives = { λ _ e. e ≡ Memory };

    fn from(_e: AllocFailed<T>) -> TreeError {
        TreeError::Memory
    }
}
