//! What is done next.

use zb_ids::{ListOf, Text8};
use zodb_core::Request;

/// What is done next on a link.
#[derive(Drop)]
pub enum Next {
    /// The session makes this step, and its reply is handed to `reply`.
    Step(
        /// The request.
        Request,
    ),
    /// These frames are sent.
    Send(
        /// The frames, in order; there may be none.
        ListOf<Text8>,
    ),
}
