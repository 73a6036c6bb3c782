//! Trees of the BTrees package over any space of objects: reading them, setting what stands under a
//! key, and removing keys.
#![tactic(auto)]

mod children;
mod span;
mod tree;
mod walk;

pub use btree_shapes::{Call, Space, SpaceError, TreeError};
pub use children::Children;
pub use span::{Span, children_within};
pub use tree::Tree;
