//! Which turns wait for the vote of another session.

ghost use Rattle.std.specs.Prelude.{◌≡◌, false};
ghost use Rattle.client_turns.specs.Waiting.{FreeTurnsAreServed, is_held_up, waits_for_vote};

use crate::clients::Clients;
use crate::member::{place_of, session_at};
use zb_model::{Refs, Resolver, Store};
use zb_script::{Line, Turn};

/// Whether a line waits while another session holds the vote: a vote, or an undo.
fn waits_for_vote(line: &Line) -> bool
    ensures { result ≡ waits_for_vote line.now }
{
    matches!(line, Line::Vote { .. } | Line::Undo { .. })
}

impl<St: Store, R: Resolver, F: Refs> Clients<St, R, F> {
    /// Whether a turn that is to wait for the vote has to: its line is a vote or an undo, and another session
    /// than its client's holds the vote. Nothing is done.
    pub fn is_held_up(&self, turn: &Turn) -> bool
        ensures { result ≡ is_held_up self.now turn.now }
    {
        if !waits_for_vote(&turn.line) {
            return false;
        }
        match place_of(self.clients.as_slice(), &turn.client) {
            Some(at) => self.hub.is_held(session_at(self.clients.as_slice(), at)),
            None => false,
        }
    }

    /// The law that while the store is whole, no vote or undo that isn't held up is answered that another session
    /// holds the vote.
    pub fn free_turns_are_served(&self)
        ensures { self.now.hub.store.broken ≡ false → FreeTurnsAreServed self.now }
    {}
}
