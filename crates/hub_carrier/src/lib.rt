//! A carrier to a desk in the same program: what a client sends is answered by steps of a hub.
#![tactic(auto)]

mod carrier;
mod cutting;
mod holding;
mod serving;
mod trouble;

pub use carrier::HubCarrier;
pub use trouble::Trouble;
