//! What the undo of transactions writes over a list, whatever keeps the list and whatever merges two
//! changes of one object.
#![tactic(auto)]

mod contents;
mod refusal;
mod undoing;
mod written;

pub use refusal::UndoRefusal;
pub use undoing::undo;
