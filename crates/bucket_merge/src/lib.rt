//! The three-way merge of buckets and sets, key by key.
#![tactic(auto)]

mod laws;
mod merging;
mod refusal;
mod walk;

pub use laws::{exchanged_sides_merge_alike, merges_are_maps, one_changed_side_is_kept};
pub use merging::merge;
pub use refusal::MergeRefusal;
