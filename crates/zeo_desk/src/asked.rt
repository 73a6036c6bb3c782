//! What was asked.

use zb_ids::Tid;

/// What a message asks, as far as its answer depends on it beside the reply.
#[derive(Clone, Copy, Debug, PartialEq, Eq)]
pub enum Asked {
    /// To register: the front is answered as the newest tid.
    Register,
    /// To commit: a commit is answered behind the news up to it.
    Finish,
    /// The news up to a commit of the session, which is answered behind them.
    NewsBehind {
        /// The transaction.
        tid: Tid,
    },
    /// A turn of a pack: where the pack is over, the answer says that it was its last turn.
    PackTurn,
    /// What was committed since: a list that doesn't fit a frame is told as not all known.
    Since,
    /// Anything else: the reply says it all.
    Other,
}

/// The step whose reply is awaited.
#[derive(Clone, Copy, Debug, PartialEq, Eq)]
pub struct Awaited {
    /// The number of the call.
    pub number: u32,
    /// What it asks.
    pub asked: Asked,
}
