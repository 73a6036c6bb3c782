//! Who has opened a session.

use crate::name::Name;
use zb_ids::ListOf;

/// The clients that have opened their sessions.
#[derive(Drop)]
pub(crate) struct Opened {
    /// All of them, in order.
    pub(crate) clients: ListOf<Name>,
    /// Those that have a link.
    pub(crate) linked: ListOf<Name>,
}
