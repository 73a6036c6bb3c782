//! The objects of trees of the BTrees package, over any space of objects: what each is to a tree, and the ways of
//! calls on it.
#![tactic(auto)]

mod class;
mod error;
mod key;
mod node;
mod path;
mod reading;
mod shared;
mod space;
mod way;

pub use class::{class_of, is_class_of};
pub use error::TreeError;
pub use key::{is_below, place_for, suits_branches, suits_items};
pub use node::{Node, child_for, read_node, suits, value_in};
pub use path::{Path, Step};
pub use reading::{Entry, Rooted, read_entry, read_root};
pub use shared::Shared;
pub use space::{Call, Recalled, Space, SpaceError};
pub use way::{Found, find, follow_root};
