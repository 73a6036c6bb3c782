//! The script of `gen N`: its turns, made as they are taken.
#![tactic(auto)]

mod blocks;
mod counting;
mod line;
mod turns;

pub use line::GenLine;
pub use turns::{GenTurn, GenTurns, MOST_ROUNDS};
