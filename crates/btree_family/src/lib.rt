//! The classes of BTrees, the keys of their objects in one order, and what stands in a bucket.
#![tactic(auto)]

mod bucket;
mod family;
mod key;
mod laws;
mod table;

pub use bucket::{Bucket, Item};
pub use family::{is_same_kind, key_fits, number_fits};
pub use key::{Key, key_order};
pub use laws::{classes_stand_once, keys_are_ordered};
pub use table::{ClassRow, KeyKind, Kind, ValueKind, leaf_of, row_of};
