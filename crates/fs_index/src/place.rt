//! Where a record stands.

use zb_ids::{Oid, Tid};

/// Where a data record or a transaction stands in a file.
#[derive(Clone, Copy, Debug, PartialEq, Eq)]
pub struct Place {
    /// The number of its transaction.
    pub serial: Tid,
    /// The place of its first byte, counted from the start of the file.
    pub at: u64,
}

/// Where a data record of an object stands.
#[derive(Clone, Copy, Debug, PartialEq, Eq)]
pub struct Placed {
    /// The object.
    pub oid: Oid,
    /// Where the record stands.
    pub place: Place,
}
