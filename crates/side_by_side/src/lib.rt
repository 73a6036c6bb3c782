//! The lines of several clients side by side: each client's are taken in their order, by whoever calls for
//! it next, over one hub. What was answered is kept, and the order in which it was.
#![tactic(auto)]

mod clients;
mod lines;
mod running;
mod turns;

pub use lines::{ClientLines, client_lines};
pub use running::{Played, play};
pub use turns::PlayedTurn;
