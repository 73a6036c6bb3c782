//! What a session is answered.

use zb_ids::{ListOf, Oid, Text8, Tid};
use zb_model::{LogLine, News, NewsCommit, Refusal, Revision};

/// What a step is answered.
#[derive(Debug, Drop)]
pub enum Reply {
    /// Where a view begins.
    Front {
        /// The tid after the newest.
        front: Tid,
        /// What happened since the session was told last.
        news: News,
        /// How often the list was packed since the hub was made.
        switches: u64,
    },
    /// An object's record below a front.
    Loaded {
        /// The serial of the revision.
        serial: Tid,
        /// The record, which is never empty.
        bytes: Text8,
        /// The serial of the object's next revision, or `None` where this is its last one.
        end: Option<Tid>,
        /// The tid after the newest: up to there the answer holds where it has no end.
        upto: Tid,
    },
    /// The object has no record below the front.
    Nothing {
        /// The object.
        oid: Oid,
        /// How often the list was packed since the hub was made.
        switches: u64,
    },
    /// Numbers that were never handed out.
    Oids {
        /// The first of them.
        first: Oid,
        /// How many follow one another.
        count: u32,
    },
    /// The session holds the vote.
    Voted,
    /// What was voted is in the list, and stays there through every crash.
    Committed {
        /// The transaction's number.
        tid: Tid,
    },
    /// Nothing was to be written.
    Empty,
    /// The session holds no vote.
    Aborted,
    /// The object's changes.
    History {
        /// The changes, the newest first.
        list: ListOf<Revision>,
    },
    /// The transactions that may be undone.
    UndoLog {
        /// The transactions, the newest first.
        list: ListOf<LogLine>,
    },
    /// The list is the packed one from now on.
    Packed {
        /// How many changes it has.
        kept: u64,
        /// How many changes went.
        dropped: u64,
    },
    /// A pack is begun.
    Packing {
        /// It goes up to this tid.
        tid: Tid,
    },
    /// More objects are marked, and others are left.
    Marking {
        /// How many are marked.
        count: u64,
    },
    /// All objects are marked that the pack keeps.
    Marked {
        /// How many they are.
        count: u64,
    },
    /// More of the packed list is copied, and transactions are left.
    Copying {
        /// How many changes are copied.
        count: u64,
    },
    /// The packed list is copied as far as it goes now.
    Copied {
        /// How many changes it has.
        count: u64,
    },
    /// The newest transaction, and how much the list has.
    Last {
        /// The newest tid, or 0.
        tid: Tid,
        /// How many changes the list has.
        changes: u64,
    },
    /// What was committed behind a tid.
    Since {
        /// Whether no change up to the tid was dropped, and at most 1,000 transactions are behind it.
        keep: bool,
        /// These transactions, in order; none where that isn't so.
        commits: ListOf<NewsCommit>,
    },
    /// The session is closed.
    Closed,
    /// The step was refused.
    Refused(
        /// Why.
        Refusal,
    ),
}
