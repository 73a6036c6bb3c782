//! What a server answers.

use zb_ids::{ListOf, Oid, Text8, Tid};
use zb_model::{LogLine, NewsCommit, Refusal, Revision};

/// How far a turn of a pack came.
#[derive(Clone, Copy, Debug, PartialEq, Eq)]
pub enum Stage {
    /// More objects are marked.
    Marking,
    /// All objects are marked.
    Marked,
    /// More changes are copied.
    Copying,
    /// All changes are copied.
    Copied,
}

/// What a server answers. Answers of several calls that have the same text are one here, so the empty
/// list is an answer of its own.
#[derive(Debug, Drop)]
pub enum Answer {
    /// Nothing more is to be said.
    Done,
    /// A transaction.
    OneTid {
        /// Its number.
        tid: Tid,
    },
    /// A revision.
    Loaded {
        /// The record, fewer than 2^32 bytes.
        bytes: Text8,
        /// The serial.
        serial: Tid,
        /// The serial of the next revision, if there is one.
        end: Option<Tid>,
        /// The front up to which this is known.
        upto: Tid,
    },
    /// No revision.
    Nothing {
        /// How many packs have gone over the list.
        switches: u64,
    },
    /// A list without items, whatever it is of.
    EmptyList,
    /// Objects, at least one.
    Oids {
        /// Their numbers.
        oids: ListOf<Oid>,
    },
    /// Revisions of an object, at least one.
    Revisions {
        /// The revisions. A user and a description have at most 65,535 bytes.
        list: ListOf<Revision>,
    },
    /// Transactions, at least one.
    LogLines {
        /// The transactions. A user and a description have at most 65,535 bytes.
        list: ListOf<LogLine>,
    },
    /// Commits, at least one.
    Commits {
        /// The commits.
        list: ListOf<NewsCommit>,
    },
    /// A pack is over.
    Packed {
        /// How many changes stay.
        kept: u64,
        /// How many went.
        dropped: u64,
    },
    /// A turn of a pack that isn't its last.
    Turned {
        /// How far it came.
        stage: Stage,
        /// How many objects are marked, or changes copied, so far.
        count: u64,
    },
    /// The last turn of a pack.
    Switched {
        /// How many changes stay.
        kept: u64,
        /// How many went.
        dropped: u64,
    },
    /// A front with the number of packs, or a transaction with the number of changes.
    TidAndCount {
        /// The front or the transaction.
        tid: Tid,
        /// The number.
        count: u64,
    },
    /// The call is refused.
    Refused {
        /// Why.
        refusal: Refusal,
    },
}
