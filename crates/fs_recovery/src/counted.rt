//! What the data records of a transaction change.

ghost use Rattle.std.specs.Prelude.{◌≡◌, ◌+◌, ◌<◌, ◌^◌, if◌then◌else◌, max};
ghost use Rattle.fs_recovery.specs.Counting.{is_stored};

use fs_index::{Index, Lookup};
use zb_ids::{Oid, Tid};

/// How many objects some data records of a transaction change, and the greatest of these.
#[derive(Clone, Copy, Debug, PartialEq, Eq)]
pub struct Counted {
    /// The number of the objects, each counted once.
    pub changes: u64,
    /// The greatest of them, or 0 where there is none.
    pub greatest: Oid,
}

/// The greater of two objects.
pub fn greater(one: Oid, other: Oid) -> Oid
    ensures { result ≡ max one other }
{
    if one < other { other } else { one }
}

/// One more, unless the object was counted before.
fn one_more(changes: u64, again: bool) -> u64
    requires { changes < 2 ^ 63 }
    ensures { result ≡ (if again then changes else changes + 1) }
{
    if again { changes } else { changes + 1 }
}

/// Whether the last record that is kept of an object is of this transaction.
fn is_again(index: &Index, oid: Oid, tid: Tid) -> bool
    ensures { result ≡ is_stored index.now.entries tid oid }
{
    match index.newest(oid) {
        Some(place) => place.serial == tid,
        None => false,
    }
}

/// What is counted with a data record more of this transaction, which is not kept yet.
pub fn with_record(counted: Counted, index: &Index, oid: Oid, tid: Tid) -> Counted
    requires { counted.changes < 2 ^ 63 }
    ensures changes { result.changes ≡ (if is_stored index.now.entries tid oid then counted.changes
        else counted.changes + 1) }
    ensures greatest { result.greatest ≡ max counted.greatest oid }
{
    Counted {
        changes: one_more(counted.changes, is_again(index, oid, tid)),
        greatest: greater(counted.greatest, oid),
    }
}
