//! The list of the file in Main, packed, is copied to Side: the objects of a given set keep their
//! last change up to a tid, later transactions stay whole, and each content stands in full. Contents go
//! from Main to Side in pieces.
#![tactic(auto)]

mod beginning;
mod buffer;
mod extent;
mod filtering;
mod growing;
mod placing;
mod ready;
mod renewing;
mod state;
mod turn;
mod writing;

pub use beginning::begin;
pub use renewing::anew;
pub use state::{CopyState, changes_of};
pub use turn::{copy_rest, copy_turn};
