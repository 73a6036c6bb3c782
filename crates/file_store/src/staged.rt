//! A transaction that is voted and not finished.

use fs_index::Placed;
use zb_ids::{ListOf, Tid};

/// A transaction that stands behind what an index keeps, until it is finished or aborted.
#[derive(Debug, Drop)]
pub struct Staged {
    /// Its number.
    pub tid: Tid,
    /// The place behind it.
    pub end: u64,
    /// Where its data records stand, in their order.
    pub records: ListOf<Placed>,
}
