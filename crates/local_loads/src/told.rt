//! What is kept of the front that a client was told of last.

use zb_ids::Tid;

/// What a client was told of last: a front of its session.
#[derive(Clone, Copy, Debug, PartialEq, Eq)]
pub struct Told {
    /// The tid after the newest by then.
    pub front: Tid,
    /// How often the list had been packed by then.
    pub switches: u64,
}
