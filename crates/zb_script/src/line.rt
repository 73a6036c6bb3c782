//! What a script says.

use crate::name::Name;
use crate::payload::Payload;
use crate::tree_call::TreeCall;
use zb_ids::{ListOf, Oid, Text8, Tid};

/// What a client does in one turn.
#[derive(Drop)]
pub enum Line {
    /// `open local`, `open remote`: a session begins.
    Open {
        /// Whether its client has a link to it.
        remote: bool,
    },
    /// `begin`: a transaction begins, with a view of the list as it stands, or, over a link, as it is known there.
    Begin,
    /// `load OID`: reads the bytes of an object in the view.
    Load {
        /// The object.
        oid: Oid,
    },
    /// `get OID`: reads an object as the transaction has it.
    Get {
        /// The object.
        oid: Oid,
    },
    /// `store OID BASE HEX`: the object is to have these bytes.
    Store {
        /// The object.
        oid: Oid,
        /// The serial of the revision that the bytes were made from, or 0.
        base: Tid,
        /// The bytes.
        bytes: Payload,
    },
    /// `put OID CLASS STATE`: the object is to have this class and this state.
    Put {
        /// The object.
        oid: Oid,
        /// The record of the class and the state, as `write_record` of `zb_record` writes it.
        bytes: Payload,
    },
    /// `check OID SERIAL`: the transaction stands only while this is the object's serial.
    Check {
        /// The object.
        oid: Oid,
        /// The serial.
        serial: Tid,
    },
    /// `delete OID BASE`: the object is to have no content.
    Delete {
        /// The object.
        oid: Oid,
        /// The serial of the revision that goes.
        base: Tid,
    },
    /// A call on a tree, or on a bucket or a set that stands alone.
    Tree {
        /// The object: the root of the tree, the bucket or the set.
        root: Oid,
        /// The call.
        call: TreeCall,
    },
    /// `savepoint`: marks what the transaction has so far.
    Savepoint,
    /// `rollback N`: the transaction goes back to a savepoint.
    Rollback {
        /// The number that the savepoint was given: below 2^32.
        number: u64,
    },
    /// `new`: asks for the number of a new object.
    New,
    /// `vote USER DESCRIPTION`: decides whether the transaction can be committed.
    Vote {
        /// Who made the transaction: at most 65,535 bytes of UTF-8.
        user: Text8,
        /// What it is for: at most 65,535 bytes of UTF-8.
        description: Text8,
    },
    /// `undo USER DESCRIPTION TID ..`: decides whether these transactions can be undone by a new one.
    Undo {
        /// Who made the new transaction: at most 65,535 bytes of UTF-8.
        user: Text8,
        /// What it is for: at most 65,535 bytes of UTF-8.
        description: Text8,
        /// The transactions, the newest first: at least one, and none twice.
        tids: ListOf<Tid>,
    },
    /// `finish`: commits what was voted.
    Finish,
    /// `abort`: ends the transaction and drops its stores.
    Abort,
    /// `deliver`: takes what was committed since the client was told last, in the middle of a transaction too, whose
    /// view stays as it is.
    Deliver,
    /// `history OID`: lists the revisions of an object.
    History {
        /// The object.
        oid: Oid,
    },
    /// `undolog`: lists the transactions that may be undone.
    UndoLog,
    /// `pack TID`, `pack TID nogc`: drops what no reader of this moment or a later one needs.
    Pack {
        /// The moment: what was committed up to it is packed.
        tid: Tid,
        /// Whether objects that nothing leads to go too: where `nogc` doesn't stand.
        collect: bool,
    },
    /// `packbegin TID`, `packbegin TID nogc`: begins the same in turns, between which others commit.
    PackBegin {
        /// The moment: what was committed up to it is packed.
        tid: Tid,
        /// Whether objects that nothing leads to go too: where `nogc` doesn't stand.
        collect: bool,
    },
    /// `packturn`: the next turn of the pack that was begun.
    PackTurn,
    /// `close`: ends the session.
    Close,
}

/// One line of a script: who does what.
#[derive(Drop)]
pub struct Turn {
    /// The client.
    pub client: Name,
    /// What it does.
    pub line: Line,
}
