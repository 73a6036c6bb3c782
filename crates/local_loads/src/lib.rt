//! The calls of a local client: one that stands in the same program as the hub.
#![tactic(auto)]

mod answers;
mod laws;
mod local;
mod requests;
mod told;

pub use laws::{answers_are_the_hubs, steps_keep_clients};
pub use local::LocalLoads;
pub use told::Told;
