//! Calls on trees.

use btree_family::Key;
use zb_ids::Text8;

/// A call on a tree, or on a bucket or a set that stands alone.
#[derive(Drop)]
pub enum TreeCall {
    /// `set OID KEY VALUE`: the key is to have this value.
    Set {
        /// The key.
        key: Key,
        /// The spelling of the value, as `spelling` of `pickle_writing` gives it.
        value: Text8,
    },
    /// `insert OID KEY`: the key is to be a member of the set.
    Insert {
        /// The key.
        key: Key,
    },
    /// `del OID KEY`: the key is to be gone.
    Del {
        /// The key.
        key: Key,
    },
    /// `find OID KEY`: asks for the value that the key has.
    Find {
        /// The key.
        key: Key,
    },
    /// `items OID`: asks for all items.
    Items,
    /// `range OID KEY KEY`: asks for the items between two keys, which are among them.
    Range {
        /// The lower end.
        from: Key,
        /// The upper end.
        to: Key,
    },
}
