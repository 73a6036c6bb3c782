//! What a store keeps of its file.

use crate::staging::StagedIndex;
use fs_recovery::Numbers;

/// What a store keeps of its file.
#[derive(Drop)]
pub(crate) struct Ready {
    /// Where the records of each object stand, and where the transactions do.
    pub(crate) index: StagedIndex,
    /// The numbers of the list.
    pub(crate) numbers: Numbers,
    /// Where a transaction that was never finished was cut off, or `None`.
    pub(crate) cut: Option<u64>,
}
