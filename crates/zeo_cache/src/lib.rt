//! The revisions that a remote client has read last, each with the fronts at which it holds.
#![tactic(auto)]

mod cache;
mod interval;

pub use cache::ZeoCache;
pub use interval::Interval;
