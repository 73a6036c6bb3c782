//! The server's end of a link: what a client's messages ask of a session, one step at a time, and the
//! frames that answer them.
#![tactic(auto)]

mod answering;
mod asked;
mod calls;
mod desk;
mod error;
mod framing;
mod naming;
mod next;
mod told;

pub use asked::{Asked, Awaited};
pub use desk::Desk;
pub use error::DeskError;
pub use next::Next;
