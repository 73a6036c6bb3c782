//! The numbers that a session has not been told yet.
#![tactic(auto)]

mod queue;

pub use queue::Queue;
