//! Messages.

use crate::answer::Answer;
use crate::call::Call;
use zb_ids::{ListOf, Oid, Tid};

/// What a server sends without being asked.
#[derive(Debug, Drop)]
pub enum Notice {
    /// Another session has committed.
    Invalidate {
        /// Its transaction.
        tid: Tid,
        /// The objects that it changed.
        oids: ListOf<Oid>,
    },
    /// All that is cached may be old.
    Forget {
        /// The front up to which that is so.
        front: Tid,
    },
    /// A pack has gone over the list.
    Packed {
        /// The newest transaction then.
        tid: Tid,
    },
}

/// What passes over a link in one payload. A number is at most [`LAST_NUMBER`](crate::LAST_NUMBER).
#[derive(Debug, Drop)]
pub enum Message {
    /// From the client.
    Asked {
        /// The number of the call.
        number: u32,
        /// What is asked.
        call: Call,
    },
    /// From the server, to a call.
    Answered {
        /// The number of the call.
        number: u32,
        /// The answer.
        answer: Answer,
    },
    /// From the server, without being asked.
    Told {
        /// What is told.
        notice: Notice,
    },
}
