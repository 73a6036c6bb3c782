//! Graphs of pickles. A pickle stands for nodes that name each other by number, so shared and cyclic
//! values stay shared and cyclic. What a class or a callee does is never looked at.
#![tactic(auto)]

mod class;
mod node;
mod parts;
mod pickle;

pub use class::is_class;
pub use node::{Act, Node};
pub use parts::{Part, is_held, is_held_at, listed_parts, part_count, part_of};
pub use pickle::Pickle;
