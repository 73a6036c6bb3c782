//! What a remote client keeps of its server, and what it makes of the messages that come.
#![tactic(auto)]

mod asking;
mod client;
mod error;
mod hearing;
mod laws;
mod reading;
mod rows;
mod taking;
mod voting;

pub use asking::AskError;
pub use client::{CACHED_ENTRIES, ZeoClient};
pub use error::ClientError;
pub use laws::{loads_serve, syncs_serve, whole_pieces_are_heard};
