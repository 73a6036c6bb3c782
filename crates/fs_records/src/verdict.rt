//! What stands at a place where a transaction may begin.

use crate::field::Field;

/// What the rules on a transaction, without those on its data records, say of a place.
#[derive(Clone, Copy, Debug, PartialEq, Eq)]
pub enum Verdict {
    /// Nothing is left: the file ends here.
    Ends,
    /// A transaction that was never finished stands here, and is cut off.
    Tail,
    /// The first rule that fails here.
    Fault(Field),
    /// A transaction begins here, and only its data records are still to be looked at.
    Begun,
}
