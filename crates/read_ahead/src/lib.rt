//! A volume whose Main is read ahead where it is read in order.
#![tactic(auto)]

mod ahead;
mod piece;

pub use ahead::ReadAhead;
