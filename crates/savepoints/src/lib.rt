//! What waits in an open transaction, and its savepoints: what was pending when each was made, to go back to.
#![tactic(auto)]

mod error;
mod going_back;
mod noting;
mod replaced;
mod waiting;

pub use error::SavepointError;
pub use waiting::Waiting;
