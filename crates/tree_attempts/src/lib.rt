//! Calls on trees over objects that the caller reads, one at a time.
#![tactic(auto)]

mod ahead;
mod attempt;
mod cache;
mod known;
mod laws;
mod operation;
mod put;
mod sight;
mod space;

pub use ahead::objects_ahead;
pub use attempt::{Attempt, Made, call_tree};
pub use cache::NodeCache;
pub use known::{Known, Seen};
pub use laws::calls_draw_alike;
pub use operation::{INNER, LEAF, TreeAnswer, TreeOperation};
pub use put::TreePut;
pub use sight::Sight;
