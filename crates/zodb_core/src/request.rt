//! What a session asks.

use commit_phases::Pending;
use zb_ids::{ListOf, Oid, Text8, Tid};

/// What a session asks in one step.
#[derive(Drop)]
pub enum Request {
    /// The tid after the newest, and what the session wasn't told yet.
    Front,
    /// An object's last revision below a front.
    LoadBefore {
        /// The object.
        oid: Oid,
        /// The front.
        front: Tid,
    },
    /// The next numbers for new objects.
    NewOids {
        /// How many, from 1 to 100.
        count: u32,
    },
    /// A vote on pending changes.
    Vote {
        /// Who makes the transaction, at most 65,535 bytes.
        user: Text8,
        /// What it is for, at most 65,535 bytes.
        description: Text8,
        /// Further notes of the program that makes it, at most 65,535 bytes.
        extension: Text8,
        /// The stores, the deletes and the checks.
        pending: Pending,
    },
    /// A vote on taking transactions back.
    Undo {
        /// Who makes the transaction, at most 65,535 bytes.
        user: Text8,
        /// What it is for, at most 65,535 bytes.
        description: Text8,
        /// The transactions that are taken back, at least one, the newest first.
        tids: ListOf<Tid>,
    },
    /// What the session has voted is appended to the list.
    Finish,
    /// What the session has voted is dropped.
    Abort,
    /// Every change of an object, the newest first.
    History {
        /// The object.
        oid: Oid,
    },
    /// Every transaction that may be undone, the newest first.
    UndoLog,
    /// The list is packed, in one step: what no view above a tid needs is dropped.
    Pack {
        /// Up to this tid, but never over the newest transaction.
        tid: Tid,
        /// Whether objects that nothing leads to go too.
        collect: bool,
    },
    /// The beginning of the same in turns, between which others commit.
    PackBegin {
        /// Up to this tid, but never over the newest transaction.
        tid: Tid,
        /// Whether objects that nothing leads to go too.
        collect: bool,
    },
    /// The next turn of the session's pack.
    PackTurn,
    /// The newest tid, and how many changes the list has.
    Last,
    /// What was committed behind a tid up to which a client had counted the changes.
    Since {
        /// The tid.
        tid: Tid,
        /// How many changes the list had up to it.
        changes: u64,
    },
    /// The end of the session; what it has voted is dropped.
    Close,
}
