//! What a set changes.

use btree_family::Key;
use btree_putting::Puts;
use zb_ids::Oid;

/// An object that was split off, the separator before it, and the first leaf below it.
#[derive(Drop)]
pub(crate) struct Sprout {
    pub key: Key,
    pub child: Oid,
    pub first: Oid,
}

/// What is put at and below an object: new ones in the order in which their numbers were drawn, and
/// changed ones.
#[derive(Drop)]
pub(crate) struct Change {
    pub news: Puts,
    pub olds: Puts,
    pub up: Option<Sprout>,
}
