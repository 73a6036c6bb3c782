//! What stands in the open file of a database, read from its volume: the list of transactions that
//! may be undone, the history of an object, the content of a record, a transaction whole or by the
//! places of its contents, and what is looked up by places: an object's revision below a front, the
//! transaction with a tid, and the first one above a tid.
#![tactic(auto)]

mod backwards;
mod contents;
mod errors;
mod front;
mod history;
mod known;
mod lookups;
mod noted;
mod outline;
mod outlining;
mod piece;
mod pieces;
mod sizes;
mod transaction;
mod undo_log;

pub use errors::ReadError;
pub use history::read_history_at;
pub use known::KnownSources;
pub use lookups::{
    first_tid_after, read_before, read_first_after, read_outline_with, read_transaction_with,
};
pub use outline::{KnownSource, Outline, OutlinedChange, Source};
pub use outlining::read_outline_at;
pub use transaction::read_change;
pub use undo_log::{read_undo_log_at, read_undo_log_before};
