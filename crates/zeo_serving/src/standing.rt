//! What a remote client was told.

use zb_ids::{ListOf, Oid, Tid};
use zb_model::News;

/// Objects that the next commit of a client may change: all, or these.
#[derive(Debug, Drop)]
pub struct MayChange {
    /// Whether every object may be changed.
    pub all: bool,
    /// The objects, where not every one may be.
    pub oids: ListOf<Oid>,
}

/// What a remote client was told, and what its vote may change.
#[derive(Debug, Drop)]
pub struct Standing {
    /// The greatest front that it knows: it was told of every commit of others below it.
    pub known: Tid,
    /// How often the list had been packed at that front.
    pub switches: u64,
    /// What it was told of since its views were renewed last.
    pub news: News,
    /// What it has asked to be voted on.
    pub asked: MayChange,
}
