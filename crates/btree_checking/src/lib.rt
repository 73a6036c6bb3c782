//! A checker of trees of the BTrees package, over any space of objects: whether a tree is sound,
//! and else which object is the first that breaks a rule.
#![tactic(auto)]

mod check;
mod checking;
mod content;
mod fed;
mod laws;
mod links;
mod place;
mod rules;
mod survey;
mod verdict;
mod walk;

pub use check::check_tree;
pub use checking::{Checking, Progress};
pub use laws::{checked_is_sound, each_is_read_once, height_is_bounded, sound_is_checked};
pub use verdict::{Rule, Verdict};
