//! A turn that was taken.

use zb_answers::Answer;
use zb_script::Name;

/// A turn that was taken.
#[derive(Drop)]
pub struct PlayedTurn {
    /// The number of its client: clients are counted from 0, in the order of their `open` lines.
    pub number: u32,
    /// The name of its client.
    pub client: Name,
    /// What it was answered.
    pub answer: Answer,
}
