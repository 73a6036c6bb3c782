//! The messages between clients and servers, and their payloads: each message is one pickle, in one
//! spelling.
#![tactic(auto)]

mod answer;
mod answer_text;
mod call;
mod call_text;
mod fitting;
mod message;
mod refusal_text;
mod writing;

pub use answer::{Answer, Stage};
pub use call::Call;
pub use fitting::fits;
pub use message::{Message, Notice};
pub use writing::{length_of, write_message};

/// The greatest number of a call. The call behind it has the number 1 again.
pub const LAST_NUMBER: u32 = 2_147_483_647;
