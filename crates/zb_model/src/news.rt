//! What a session is told of the commits of others.

use zb_ids::{ListOf, Oid, Tid};

/// A commit of another session.
#[derive(Debug, Drop)]
pub struct NewsCommit {
    /// Its tid.
    pub tid: Tid,
    /// The objects that it changed, in the order of its changes.
    pub oids: ListOf<Oid>,
}

/// What happened since a session was told last.
#[derive(Debug, Drop)]
pub struct News {
    /// More than was kept: all that is cached may be old, and `commits` is empty.
    pub forget: bool,
    /// A pack has gone over the list.
    pub packed: bool,
    /// The commits of other sessions, in their order.
    pub commits: ListOf<NewsCommit>,
}
