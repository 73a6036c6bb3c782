//! Reading messages: the message that a payload spells, and that each payload is of one at most.
#![tactic(auto)]

mod answer_reading;
mod call_reading;
mod error;
mod laws;
mod list_reading;
mod reading;
mod refusal_reading;

pub use error::MessageError;
pub use laws::payloads_are_read_back;
pub use reading::read_message;
