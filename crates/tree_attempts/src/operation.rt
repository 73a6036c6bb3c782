//! Calls on a tree, and what they answer.

use btree_family::{Item, Key};
use zb_ids::{ListOf, Text8};

/// How many items a leaf has, at most, where the tree splits it.
pub const LEAF: usize = 30;

/// How many objects below it an object of a tree has, at most, where the tree splits it.
pub const INNER: usize = 250;

/// A call on a tree, or on a bucket or a set that stands alone.
#[derive(Debug, Drop)]
pub enum TreeOperation {
    /// Asks for what stands under a key.
    Get {
        /// The key.
        key: Key,
    },
    /// Sets what stands under a key.
    Set {
        /// The key.
        key: Key,
        /// The spelling of its value, or `None` in a set.
        value: Option<Text8>,
    },
    /// Removes a key.
    Remove {
        /// The key.
        key: Key,
    },
    /// Asks for all items.
    Items,
    /// Asks for the items from one key to another, both included.
    Range {
        /// The lower key.
        from: Key,
        /// The upper key.
        to: Key,
    },
}

/// What a call on a tree answers.
#[derive(Debug, Drop)]
pub enum TreeAnswer {
    /// What stands under the key: the spelling of its value, in a set that of True. It is `None` where the key is absent.
    Value(
        /// The spelling.
        Option<Text8>,
    ),
    /// The value is set.
    Set,
    /// The key is absent now.
    Removed {
        /// Whether it was there.
        was: bool,
    },
    /// The items, in their order.
    Items {
        /// They.
        list: ListOf<Item>,
        /// Whether they are members of a set, which have no values.
        is_set: bool,
    },
}
