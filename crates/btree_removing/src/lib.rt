//! Removing a key of a tree of the BTrees package: what is read for it, which objects change and
//! how, and that they are put.
#![tactic(auto)]

mod bottom;
mod items;
mod last;
mod linking;
mod losing;
mod planning;
mod removing;
mod rung;
mod sides;

pub use removing::remove;
