//! What a call puts.

use zb_ids::{Oid, Text8, Tid};

/// An object's new bytes, as a call on a tree puts them, and the revision that they were made from.
#[derive(Debug, Drop)]
pub struct TreePut {
    /// The object.
    pub oid: Oid,
    /// The serial of the revision that the bytes were made from, or 0 where the object is new or had nothing.
    pub base: Tid,
    /// The bytes: the record of a leaf, of an object above leaves, or of the root.
    pub bytes: Text8,
}
