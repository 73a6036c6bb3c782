//! One hub that threads share behind a lock, and whose steps stand in one history.
#![tactic(auto)]

mod entry;
mod heard;
mod locked;
mod names;
mod rings;
mod shared;
mod tokens;

pub use entry::HistoryEntry;
pub use heard::Heard;
pub use names::Origin;
pub use shared::Shared;
pub use tokens::{Ear, Pass, Seen};
