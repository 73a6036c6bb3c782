//! The vote that is held.

use zb_ids::{ListOf, Oid, Tid};

/// What the journal will say of a transaction that is voted.
#[derive(Debug, Drop)]
pub struct VotedEntry {
    /// Its number.
    pub tid: Tid,
    /// The objects that it changes, in the order of its changes.
    pub oids: ListOf<Oid>,
}

/// A vote that is held.
#[derive(Debug, Drop)]
pub struct HubVote {
    /// The number of the session that holds it.
    pub session: u32,
    /// What the store has voted, or `None` where there is nothing to write.
    pub writes: Option<VotedEntry>,
}
