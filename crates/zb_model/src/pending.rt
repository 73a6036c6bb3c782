//! Changes that wait for a vote.

use crate::data::Content;
use zb_ids::{Oid, Tid};

/// What an object is to become, and the revision that this was made from: a store of its new record,
/// or a delete.
#[derive(Debug, Drop)]
pub struct PendingStore {
    /// The object.
    pub oid: Oid,
    /// The serial of the revision that it was made from, or 0.
    pub base: Tid,
    /// The new record, which isn't empty, or `Absent` where the object is deleted.
    pub content: Content,
}

/// An object that must not have changed since it was read.
#[derive(Clone, Copy, Debug, PartialEq, Eq)]
pub struct PendingCheck {
    /// The object.
    pub oid: Oid,
    /// The serial that it is to have, or 0 where it is to have none.
    pub serial: Tid,
}
