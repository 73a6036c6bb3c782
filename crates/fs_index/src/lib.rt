//! The index of a FileStorage file: where the records of each object stand and where the
//! transactions do, and looking them up without taking memory.
#![tactic(auto)]

mod index;
mod listing;
mod lookup;
mod objects;
mod place;
mod places;
mod search;
mod several;

pub use index::Index;
pub use lookup::Lookup;
pub use place::{Place, Placed};
pub use search::{any_at, count_below, first_from, last_before, last_of};
