//! An open transaction.

use savepoints::Waiting;
use std::marker::Model;
use zb_ids::Tid;

/// An open transaction of a client. Of the list that it sees it has the front alone, below which the list stays
/// as it is unless it is packed. Contracts see what waits for a vote, and what waited at each of its savepoints.
#[derive(Drop)]
pub(crate) struct OpenWork {
    /// The front of its view: it reads what stands below.
    pub(crate) front: Tid,
    /// How often the list of the view had been packed.
    pub(crate) switches: u64,
    /// What waits for a vote, and what waited at each of its savepoints.
    pub(crate) waiting: Waiting,
    /// Whether what waits is voted, or an undo is.
    pub(crate) is_voted: bool,
}

impl Model for OpenWork {
    ghost use Rattle.connection_view.specs.Works.{Work};

    ghost Value = { Work };

    ghost view = { λ a. record {
      front = a.front;
      switches = a.switches;
      pending = a.waiting.pending;
      savepoints = a.waiting.savepoints;
      is_voted = a.is_voted;
    } };
}
