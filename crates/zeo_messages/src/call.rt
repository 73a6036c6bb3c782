//! What a client sends.

use zb_ids::{ListOf, Oid, Text8, Tid};

/// What a client asks of a server.
#[derive(Debug, Drop)]
pub enum Call {
    /// Opens the conversation; it comes first. Answered by the newest tid.
    Register {
        /// Whether the client comes back with what it has cached.
        again: bool,
    },
    /// An object's revision below a front.
    LoadBefore {
        /// The object.
        oid: Oid,
        /// The front.
        front: Tid,
    },
    /// New object numbers.
    NewOids {
        /// How many, from 1 to 100.
        count: u32,
    },
    /// Empties what waits for a vote, and says the texts of the votes that follow. Not answered.
    TpcBegin {
        /// Who makes the transaction, at most 65,535 bytes.
        user: Text8,
        /// What it is for, at most 65,535 bytes.
        description: Text8,
        /// Further notes, at most 65,535 bytes.
        extension: Text8,
    },
    /// A store that waits for the vote. Not answered.
    Storea {
        /// The object.
        oid: Oid,
        /// The serial of the revision that the bytes were made from, or 0.
        base: Tid,
        /// The object's record: from 1 to 2^32-1 bytes.
        bytes: Text8,
    },
    /// A delete that waits for the vote. Not answered.
    DeleteObject {
        /// The object.
        oid: Oid,
        /// The serial of the revision that was read.
        base: Tid,
    },
    /// A check that waits for the vote: that the object still has this serial. Not answered.
    CheckCurrentSerial {
        /// The object.
        oid: Oid,
        /// The serial, or 0 for none.
        serial: Tid,
    },
    /// Votes what waits.
    Vote,
    /// Votes the undoing of transactions.
    Undoa {
        /// Who undoes them, at most 65,535 bytes.
        user: Text8,
        /// What for, at most 65,535 bytes.
        description: Text8,
        /// The transactions, each earlier than the one before; at least one.
        tids: ListOf<Tid>,
    },
    /// Commits what was voted.
    TpcFinish,
    /// Drops what was voted.
    TpcAbort,
    /// An object's revisions, the newest first.
    History {
        /// The object.
        oid: Oid,
    },
    /// The transactions that can be undone, the newest first.
    UndoInfo,
    /// Packs to a time, in one step.
    Pack {
        /// The time.
        tid: Tid,
        /// Whether what nothing leads to is dropped as well.
        collect: bool,
    },
    /// Begins to pack to a time.
    PackBegin {
        /// The time.
        tid: Tid,
        /// Whether what nothing leads to is dropped as well.
        collect: bool,
    },
    /// A further turn of the pack.
    PackTurn,
    /// The newest front, with the news up to it.
    Sync,
    /// The newest tid, and how many changes there are up to it.
    LastTransaction,
    /// What was committed behind a transaction.
    GetInvalidations {
        /// The transaction.
        tid: Tid,
        /// How many changes the client knows up to it.
        changes: u64,
    },
}
