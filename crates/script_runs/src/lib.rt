//! The turns of a script over a store, one after another or each client's side by side, and what is written
//! of them. The script may also be made from a number.
#![tactic(auto)]

mod counting;
mod laws;
mod making;
mod manner;
mod playing;
mod replying;
mod running;
mod saying;
mod status;
mod tally;

pub use laws::what_was_committed_stays;
pub use making::gen_over_store;
pub use manner::Manner;
pub use playing::{NoGate, play_over_store};
pub use running::{run_over_store, take_over_store};
pub use saying::{cut_lines, say, say_behind, write_behind, write_both, write_lines};
pub use status::Status;
