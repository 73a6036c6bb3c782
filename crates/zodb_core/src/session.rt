//! The sessions.

ghost use Rattle.std.specs.Prelude.{◌≡◌, map};
ghost use Rattle.zodb_core.specs.Machine.{is_open_in};
ghost use Rattle.zodb_core.specs.Telling.{session_seen};

use invalidation_queue::Queue;

/// What the hub keeps of a session.
#[derive(Drop)]
pub(crate) struct HubSession {
    /// Whether its requests are served.
    pub(crate) is_open: bool,
    /// How many entries of the journal it was told, or had been made when it was opened.
    pub(crate) told: u64,
    /// While it is open, the places of the entries since then of which it is to be told, or that they are too many.
    pub(crate) untold: Queue,
    /// While it is open, how many entries there were up to the last one of which it is to be told; at first, how many
    /// there were when it was opened.
    pub(crate) newest: u64,
}

/// Whether a session is open.
pub(crate) fn is_open(sessions: &[HubSession], number: u32) -> bool
    ensures { result ≡ is_open_in (map session_seen sessions.now) number }
{
    match sessions.get(number as usize) {
        Some(session) => session.is_open,
        None => false,
    }
}
