//! What a pack reaches, and what it may drop, whatever keeps the list and whatever reads the references
//! of records.
#![tactic(auto)]

mod late;
mod laws;
mod marker;
mod refusal;
mod turns;
mod uncollected;

pub use laws::{
    packed_records_stand, packs_keep_contents, packs_outlast_commits, reached_is_all,
    states_are_reached, unreadable_is_least,
};
pub use marker::{Marked, Marker};
pub use refusal::PackRefusal;
