//! Where a transaction is to stand behind the file on Side.

use fs_index::Placed;
use zb_ids::ListOf;

/// A transaction that is to stand behind the file on Side.
#[derive(Debug, Drop)]
pub struct Ready {
    /// Where its data records are to stand, in their order.
    pub records: ListOf<Placed>,
    /// Where it is to end.
    pub end: u64,
}
