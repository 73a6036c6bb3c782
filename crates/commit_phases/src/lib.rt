//! The first phase of a commit: changes that wait for a vote, and what a vote makes of them over a
//! list, whatever merges two changes of one object.
#![tactic(auto)]

mod deciding;
mod errors;
mod going_back;
mod pending;
mod resolving;
mod several;

pub use deciding::decide;
pub use errors::{PendingError, VoteRefusal};
pub use pending::{Extent, OBJECT_LIMIT, Pending, TRANSACTION_LIMIT};
