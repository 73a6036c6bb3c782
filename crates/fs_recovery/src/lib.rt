//! A FileStorage file on a volume is opened: it is read once, forward, in pieces of bounded size, a
//! transaction that was never finished is cut off, and what is left is made sure of.
#![tactic(auto)]

mod blocks;
mod counted;
mod errors;
mod head;
mod held;
mod numbers;
mod opening;
mod pieces;
mod records;
mod tail;
mod tally;
mod window;

pub use counted::Counted;
pub use errors::OpenError;
pub use numbers::Numbers;
pub use opening::{Opened, open_main, read_file, read_on};
pub use tally::Tally;
