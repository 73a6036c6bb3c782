//! The program, but for what the system gives it: a file is opened, or made where there is none; a
//! script of client turns is read, its turns are taken over the file, one at a time or each client's side by
//! side, and answered; or something is asked of the file and answered.
#![tactic(auto)]

mod answering;
mod asking;
mod checking;
mod generating;
mod indexing;
mod packing;
mod running;
mod saying;
mod script;
mod serving;
mod top;

pub use script::{MOST_BYTES, turns_of};
pub use top::zodb_main;
