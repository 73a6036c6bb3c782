//! A transaction without its contents: where each of them stands.

use zb_ids::{ListOf, Oid, Text8, Tid};

/// The bytes of a content: they stand behind the header of a data record.
#[derive(Clone, Copy, Debug, PartialEq, Eq)]
pub struct Source {
    /// Where the data record stands.
    pub at: u64,
    /// How many bytes there are, at least one.
    pub length: u64,
}

/// A data record whose content is known to stand somewhere.
#[derive(Clone, Copy, Debug, PartialEq, Eq)]
pub struct KnownSource {
    /// Where the data record stands.
    pub at: u64,
    /// Where its content stands, or `None` where the object isn't there.
    pub source: Option<Source>,
}

/// One object's new content, by where it stands.
#[derive(Clone, Copy, Debug, PartialEq, Eq)]
pub struct OutlinedChange {
    /// The object.
    pub oid: Oid,
    /// Where its bytes stand, or `None` where the object isn't there from then on.
    pub source: Option<Source>,
}

/// A transaction of a file, with the places of its contents in the place of their bytes. Its changes
/// name each object at most once.
#[derive(Debug, Drop)]
pub struct Outline {
    /// Its number.
    pub tid: Tid,
    /// Whether a pack has gone over it.
    pub packed: bool,
    /// Who made it, at most 65,535 bytes.
    pub user: Text8,
    /// What it is for, at most 65,535 bytes.
    pub description: Text8,
    /// Further notes of the program that made it, at most 65,535 bytes.
    pub extension: Text8,
    /// The changes, in the order in which they were first stored.
    pub changes: ListOf<OutlinedChange>,
}
