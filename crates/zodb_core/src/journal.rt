//! What happened to the list.

use zb_ids::{ListOf, Oid, Tid};

/// What happened to the list since the hub was made.
#[derive(Debug, Drop)]
pub enum JournalEntry {
    /// A transaction was appended.
    Commit {
        /// The number of the session that made it.
        session: u32,
        /// The transaction's number.
        tid: Tid,
        /// The objects that it changed, in the order of its changes.
        oids: ListOf<Oid>,
    },
    /// The list was packed.
    Packed {
        /// Up to this tid.
        tid: Tid,
    },
}
