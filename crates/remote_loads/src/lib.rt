//! The calls of a remote client: one whose server stands at the other end of a link.
#![tactic(auto)]

mod answers;
mod calls;
mod carrier;
mod causes;
mod finishing;
mod holding;
mod laws;
mod link;
mod making;
mod remote;
mod requesting;
mod syncing;
mod undoing;
mod voting;

pub use carrier::Carrier;
pub use laws::one_call_is_served;
pub use link::LinkCarrier;
pub use remote::Remote;
