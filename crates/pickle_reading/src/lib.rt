//! Reading pickles: each token does to the nodes so far, the stack and the memo what its opcode says.
#![tactic(auto)]

mod additions;
mod error;
mod kept;
mod leaves;
mod nodes;
mod reading;
mod state;
mod steps;

pub use additions::Addition;
pub use error::PickleError;
pub use kept::Kept;
pub use reading::{NODE_LIMIT, ends, read_pickle};
pub use state::{Extent, Item, Memo, NodeTable, Stack, State, first_room};
pub use steps::take_step;
