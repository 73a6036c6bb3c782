//! Why a turn is refused.

use zb_ids::{Oid, Text8, Tid};

/// Why two changes of one object can't be merged. Where several hold, the first one here is named.
#[derive(Debug, Drop)]
pub enum Why {
    /// The stored bytes are of no class that has a rule of merging.
    NoRule,
    /// The object isn't there any more.
    Gone,
    /// No revision of the object with a record has the base as its serial.
    NoOld,
    /// One of the three is no state of the stored one's class that can be read and written.
    Unreadable,
    /// One of three trees isn't a single leaf without an object of its own.
    NotEmbedded,
    /// The three leaves aren't followed by the same one.
    Link,
    /// The committed or the stored leaf is empty.
    EmptySide,
    /// Both sides changed what stands under a key, the least of such keys.
    Key(
        /// The key, as a pickle spells it.
        Text8,
    ),
    /// A side begins with a greater key than the old leaf.
    FirstKey,
    /// The sum of a length that both sides changed is no signed number of 128 bits.
    Overflow,
}

/// Why a turn is refused. But where a variant says so, a refused step changes nothing of the database
/// and its sessions; the object numbers that a refused line on a tree drew stay handed out.
#[derive(Debug, Drop)]
pub enum Refusal {
    /// `next_tid` gives no tid below 2^64-1 for a vote that would write.
    TidsSpent,
    /// A write, cut, sync or replace of the volume failed: all sessions are closed, and the volume is to
    /// be opened again.
    StoreFault,
    /// The base of a store or of a delete isn't the object's current serial, and the changes can't
    /// be merged; a delete never can.
    Conflict {
        /// The object.
        oid: Oid,
        /// The serial that the store or the delete was made from.
        base: Tid,
        /// The object's serial now, or 0 where it has none.
        current: Tid,
        /// Why they can't be merged.
        why: Why,
    },
    /// A checked serial isn't the object's current one.
    ReadConflict {
        /// The object.
        oid: Oid,
        /// The serial that was checked.
        base: Tid,
        /// The object's serial now, or 0 where it has none.
        current: Tid,
    },
    /// Bytes pass a limit.
    TooLong {
        /// How many bytes they are: those of the object, of the transaction, or of the frame.
        length: u64,
    },
    /// No transaction of the list has the tid that is to be undone.
    UndoUnknown {
        /// The tid.
        tid: Tid,
    },
    /// A pack has gone over the transaction that is to be undone.
    UndoPacked {
        /// Its tid.
        tid: Tid,
    },
    /// An object was changed since, and the changes can't be merged.
    UndoConflict {
        /// The object.
        oid: Oid,
        /// The serial of its last revision.
        later: Tid,
    },
    /// While a pack was under way, a commit named an object that it was to drop; the pack is dropped.
    Overtaken {
        /// The object.
        oid: Oid,
        /// The tid of that commit.
        tid: Tid,
    },
    /// A record whose references a pack must follow can't be read; the pack is dropped.
    Unreadable {
        /// The object.
        oid: Oid,
        /// The serial of the record.
        tid: Tid,
    },
    /// A pack has gone up to this time already.
    PackedAlready {
        /// The greatest tid that a pack has gone over.
        packed: Tid,
    },
    /// The object has no content in the view.
    Missing {
        /// The object.
        oid: Oid,
        /// Whether a pack may have dropped what the view had.
        packed: bool,
    },
    /// The session has no open transaction.
    NoTransaction,
    /// The session has an open transaction.
    InTransaction,
    /// A finish in a session that doesn't hold the vote.
    NotVoted,
    /// The session holds the vote already.
    Voted,
    /// Another session holds the vote.
    Busy {
        /// The number of that session.
        holder: u32,
    },
    /// A pack is open.
    PackRunning {
        /// The number of the session that opened it.
        session: u32,
    },
    /// Fewer object numbers are left than were asked for.
    OidsSpent,
    /// The changes of this run would pass 2^23.
    JournalFull {
        /// How many they would be.
        count: u64,
    },
    /// There were 64 sessions already.
    TooManySessions {
        /// How many there were.
        count: u32,
    },
    /// The session isn't open.
    NotOpen,
    /// There are not so many savepoints.
    NoSavepoint {
        /// The number that was asked for.
        number: u64,
    },
    /// A frame's length passes the limit. Of a client's call, its steps before may have been made.
    FrameTooLong {
        /// The length that it says.
        length: u32,
    },
    /// A payload is no message. Of a client's call, its steps before may have been made.
    BadMessage,
    /// A call of the link failed. The steps that were asked for may have been made.
    LinkFault,
    /// The link has ended. The steps that were asked for may have been made.
    Closed,
    /// An undo in a transaction that has stores or checks.
    Mixed {
        /// How many it has of both.
        stores: u64,
    },
    /// No pack is open.
    NoPack,
    /// The object isn't a node of a tree, or stands twice on one way.
    NotATree {
        /// The object.
        oid: Oid,
    },
    /// A node of a tree has no content.
    NodeMissing {
        /// Its object.
        oid: Oid,
    },
    /// A key or a value isn't of the tree's kind.
    BadKey,
    /// Reading the file failed; a pack that was asked on is dropped, and else the state is as it was
    /// before the step. Of a call of several steps, those before it stand.
    ReadFault,
    /// There is nothing to delete.
    NothingToDelete {
        /// The object.
        oid: Oid,
        /// The serial of its last revision, or 0 where it has none.
        current: Tid,
    },
    /// The client has a link.
    Connected {
        /// The number of its session.
        session: u32,
    },
    /// The history of all sessions has 2^64-1 entries.
    StepsSpent,
    /// There is no memory; a pack that was asked on is dropped, and else the state is as it was before
    /// the step. Of a call of several steps, those before it stand.
    Memory,
}
