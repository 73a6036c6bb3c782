//! What stands at a place where a transaction may begin.

use fs_records::{Field, Header};

/// What the rules on a transaction, without those on its data records, say of a place.
#[derive(Clone, Copy, Debug, PartialEq, Eq)]
pub enum Head {
    /// Nothing is left.
    Ends,
    /// A transaction that was never finished.
    Tail,
    /// The first rule that fails.
    Fault(Field),
    /// A transaction with this header begins.
    Begun(Header),
}
