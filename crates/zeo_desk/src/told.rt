//! What a reply tells.

use zb_ids::{ListOf, Text8};
use zeo_messages::Answer;

/// What a reply tells: the frames that are sent before its answer, and the answer.
#[derive(Drop)]
pub(crate) struct Told {
    pub(crate) frames: ListOf<Text8>,
    pub(crate) answer: Answer,
}
