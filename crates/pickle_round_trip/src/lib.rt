//! What is written reads back as the same graph.
#![tactic(auto)]

mod laws;

pub use laws::{
    written_pickles_read_anywhere, written_pickles_read_back, written_pickles_read_behind,
};
