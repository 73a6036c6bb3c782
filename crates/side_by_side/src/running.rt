//! All lines of clients, each client's in a task of its own.

ghost use Rattle.std.specs.Prelude.{◌≡◌, ◌≤◌, None, false, length};
ghost use Rattle.side_by_side.specs.Plays.{IsPlayed, play_start};

use crate::clients::SideBySide;
use crate::lines::ClientLines;
use crate::turns::PlayedTurn;
use client_turns::TurnError;
use std::alloc::Global;
use std::sync::Wait;
use std::thread::Threads;
use zb_model::Store;
use zb_outside::Clock;
use zeo_server::{Gate, Workers};

/// What is left of clients whose lines were taken side by side.
#[derive(Drop)]
pub struct Played<St: Store> {
    /// The store, with what the turns made of it.
    pub store: St,
    /// The turns that were answered, in the order in which they were taken.
    pub taken: Vec<PlayedTurn>,
    /// How the run ended before all lines were taken, if it did.
    pub ended: Option<TurnError>,
}

/// Takes the lines of clients over a store, each client's in their order and in a task of its own, with the workers'
/// gate before each turn, until none is left, or the store fails or memory runs out in a turn. A vote and an undo wait
/// while another session holds the vote, and a client's last turn closes its session.
///
/// It holds the state of the clients for one turn at a time. It takes memory for the answers, as they come.
pub fn play<G, St, C, R>(
    rt: &R,
    alloc: Global,
    workers: &Workers<G>,
    store: St,
    lines: Vec<ClientLines>,
    clock: &mut C,
) -> Played<St>
where
    G: Gate + Sync,
    St: Store + Send,
    C: Clock + Send,
    R: Threads + Wait + Sync,
    requires whole { (St.state store).broken ≡ false }
    requires free { (St.state store).voted ≡ None }
    requires few { length lines.items ≤ 64 }
    ensures { IsPlayed St.told St.lasts St.stands (play_start (St.state store) (C.stamps clock.old) lines.entry.items)
        (St.state result.store) (C.stamps clock.new) result.taken.items result.ended }
{
    let begun = SideBySide::new(alloc, store, lines, clock);
    let over = workers.play(rt, begun);
    let (store, taken, ended, _clock) = over.into_parts();
    Played {
        store,
        taken,
        ended,
    }
}
