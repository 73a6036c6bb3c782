//! Writing pickles: each graph has one text.
#![tactic(auto)]

mod depth;
mod error;
mod laws;
mod leaf_text;
mod node_map;
mod shared;
mod writing;

pub use depth::WALK_LIMIT;
pub use error::WriteError;
pub use laws::cyclic_graphs_are_too_deep;
pub use writing::{PutNumbers, check_depth, leaf_spelling, put_numbers, spelling, write_pickle};
