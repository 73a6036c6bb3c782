//! Setting what stands under a key of a tree of the BTrees package: what is read for it, which
//! objects change and how, and that they are put.
#![tactic(auto)]

mod bottom;
mod change;
mod drawing;
mod growing;
mod inserting;
mod pieces;
mod planning;
mod preparing;
mod rung;
mod setting;
mod settling;
mod value;

pub use preparing::Sizes;
pub use setting::{SetEnd, changes_are_alike, set, set_within};
