//! What the words behind the program's name ask.
#![tactic(auto)]

mod command;
mod entering;
mod table;

pub use command::{Asked, Command, PackRequest, ServeRequest, command_of};
