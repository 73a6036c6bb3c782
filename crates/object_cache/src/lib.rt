//! The revisions that a connection has read last.
#![tactic(auto)]

mod cache;

pub use cache::ObjectCache;
