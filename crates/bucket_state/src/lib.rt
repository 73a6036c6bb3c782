//! The states of BTrees' objects: buckets and sets read and written, and the states of trees read.
#![tactic(auto)]

mod entries;
mod error;
mod flat;
mod flat_laws;
mod inner_text;
mod items;
mod laws;
mod laying;
mod links;
mod lone_text;
mod reading;
mod tree;
mod writing;

pub use error::StateError;
pub use flat::flat_state;
pub use flat_laws::{
    flat_states_are_graphs, inner_states_are_graphs, inner_states_are_spelled,
    lone_states_are_graphs, lone_states_are_spelled,
};
pub use inner_text::inner_state;
pub use laws::{
    flat_states_are_spelled, links_stand_apart, same_graphs_are_spelled_alike,
    same_graphs_hold_the_same, states_keep_their_depth, written_buckets_read_back,
    written_leaves_read_back, written_objects_read_back,
};
pub use lone_text::lone_state;
pub use reading::read_bucket;
pub use tree::{Branch, Inner, TreeState, read_tree};
pub use writing::{key_spelling, write_bucket, write_embedded, write_inner};
