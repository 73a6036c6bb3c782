//! Scripts of client turns. Each line has one spelling.
#![tactic(auto)]

mod cutting;
mod errors;
mod keys;
mod limits;
mod line;
mod name;
mod opened;
mod payload;
mod reading;
mod script;
mod shape;
mod stored;
mod tree_call;
mod tree_lines;
mod voting;
mod words;

pub use errors::ScriptError;
pub use limits::Limit;
pub use line::{Line, Turn};
pub use name::Name;
pub use payload::Payload;
pub use script::{clients_open_first, one_script, read_line, read_script};
pub use tree_call::TreeCall;
