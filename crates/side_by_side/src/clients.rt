//! The lines of clients, taken side by side.

ghost use Rattle.std.specs.Prelude.{◌≡◌, ◌≢◌, ◌<◌, ◌≤◌, ◌+◌, ◌++◌, ◌∷◌, [], ℕ, IfErr, IsErrOf, None, OnOk, Some, false, length, slice_get, vec_capacity};
ghost use Rattle.zb_base.specs.Counts.{Rose};
ghost use Rattle.zb_volume.specs.declared.areas.Area.TheVariants.{Main, Side};
ghost use Rattle.zb_volume.specs.Moments.{LeavesOnly, StaysAs};
ghost use Rattle.client_turns.specs.declared.errors.TurnError.TheVariants.{StoreFault};
ghost use Rattle.client_turns.specs.Clients.{Moment};
ghost use Rattle.client_turns.specs.Refusing.{IsFittingLine};
ghost use Rattle.client_turns.specs.Standing.{IsListIn, LeadsTo, StandsForMoment, packs_list};
ghost use Rattle.client_turns.specs.Waiting.{is_held_up};
ghost use Rattle.side_by_side.specs.Plays.{EndsAs, IsNoted, IsPlay, IsUnnoted, PlayStart, count_left, ending_of, found_waits, play_start, play_state};
ghost use Rattle.side_by_side.specs.Runs.{stock};

use crate::lines::ClientLines;
use crate::turns::PlayedTurn;
use client_turns::{Clients, TurnError};
use std::alloc::Global;
use zb_model::Store;
use zb_outside::Clock;
use zb_resolve::{StockRefs, StockResolver};
use zb_script::Turn;
use zeo_server::{Playing, Taken};

/// The clients of a script over one hub, with the lines that each has left, what was answered so far, in the
/// order in which it was, and how the run ended early, if it did.
#[derive(Drop)]
pub(crate) struct SideBySide<'t, 'c, St: Store, C: Clock> {
    alloc: Global,
    clients: Clients<St, StockResolver, StockRefs>,
    clock: &'c mut C,
    lines: Vec<ClientLines<'t>>,
    taken: Vec<PlayedTurn>,
    ended: Option<TurnError>,
    ghost few: { length lines.items ≤ 64 },
    ghost whole: { ended ≡ None → clients.hub.store.broken ≡ false },
}

/// What is answered once a run has ended.
fn ending(why: TurnError) -> Taken
    ensures { result ≡ ending_of why }
{
    match why {
        TurnError::StoreFault => Taken::Faulted,
        TurnError::Memory => Taken::Memory,
    }
}

/// Puts a turn behind those that were taken before, for which there is room.
fn note(taken: &mut Vec<PlayedTurn>, turn: PlayedTurn)
    requires room { length taken.old.items < vec_capacity taken.old }
    ensures { taken.new.items ≡ taken.old.items ++ turn ∷ [] }
{
    let _ = taken.push(turn);
}

impl<'t, 'c, St: Store, C: Clock> SideBySide<'t, 'c, St, C> {
    /// Clients with these lines over a store. It takes no memory.
    pub(crate) fn new(
        alloc: Global,
        store: St,
        lines: Vec<ClientLines<'t>>,
        clock: &'c mut C,
    ) -> SideBySide<'t, 'c, St, C>
        requires whole { (St.state store).broken ≡ false }
        requires free { (St.state store).voted ≡ None }
        requires few { length lines.items ≤ 64 }
        ensures play { IsPlay St.told St.lasts St.stands (play_start (St.state store) (C.stamps clock.old) lines.entry.items)
            (play_state result.clients (C.stamps result.clock.now) result.lines.items result.taken.items result.ended) }
        ensures place { result.clock.ghost_name ≡ clock.entry.ghost_name }
        ensures few { length result.lines.items ≤ 64 }
    {
        let clients = Clients::new(alloc, store, StockResolver, StockRefs);
        SideBySide {
            alloc,
            clients,
            clock,
            lines,
            taken: Vec::new(alloc),
            ended: None,
        }
    }

    /// Whether a client's next line has to wait for another session's vote.
    #[tactic(auto, using(crate::proofs::Places::waits_first, crate::proofs::Places::waits_none))]
    fn is_held_up(&self, client: usize) -> bool
        requires place { client < length self.now.lines.items }
        ensures { result ≡ found_waits self.now.clients (slice_get self.now.lines.items client) }
    {
        match self.lines[client].first() {
            Some(turn) => self.clients.is_held_up(turn),
            None => false,
        }
    }

    /// Takes a turn, and keeps its answer, or why the run ends there.
    fn answer(&mut self, number: u32, turn: &Turn, is_last: bool) -> Result<(), TurnError>
        requires fitting { IsFittingLine turn.now.line }
        requires goes_on { self.old.ended ≡ None }
        requires free { is_held_up self.old.clients turn.now ≡ false }
        ensures ok { St.told → (m : Moment) → StandsForMoment self.old.clients (C.stamps self.old.clock.now) m → OnOk result
            (LeadsTo (IsNoted number m turn.now is_last self.old.taken.items self.new.taken.items) self.new.clients (C.stamps self.new.clock.now)) }
        ensures err { St.told → (m : Moment) → StandsForMoment self.old.clients (C.stamps self.old.clock.now) m → IfErr result (λ why.
            LeadsTo (IsUnnoted why m turn.now is_last self.old.taken.items self.new.taken.items) self.new.clients (C.stamps self.new.clock.now)) }
        ensures moments { St.lasts → St.told → (m : Moment) → StandsForMoment self.old.clients (C.stamps self.old.clock.now) m →
            LeavesOnly Main (IsListIn St.stands stock m turn.now) self.old.clients.hub.store.log self.new.clients.hub.store.log }
        ensures side { St.lasts → packs_list turn.now.line ≡ false → StaysAs Side self.old.clients.hub.store.log self.new.clients.hub.store.log }
        ensures lines { self.new.lines ≡ self.old.lines }
        ensures on { OnOk result (self.new.ended ≡ None) }
        ensures ended { IfErr result (λ why. self.new.ended ≡ Some why) }
        ensures place { self.new.clock.ghost_name ≡ self.old.clock.ghost_name }
        ensures stays { OnOk result (self.new.clients.hub.store.broken ≡ false) }
        ensures failed { IsErrOf result StoreFault → Rose self.old.clients.hub.store.faults self.new.clients.hub.store.faults }
        ensures others { ¬ IsErrOf result StoreFault → self.new.clients.hub.store.faults ≡ self.old.clients.hub.store.faults }
        ensures read_counted { self.old.clients.hub.store.read_faults ≤ self.new.clients.hub.store.read_faults }
        ensures counted { self.old.clients.hub.store.faults ≤ self.new.clients.hub.store.faults }
    {
        self.clients.lasting();
        self.clients.free_turns_are_served();
        if self.taken.reserve(1).is_err() {
            self.ended = Some(TurnError::Memory);
            return Err(TurnError::Memory);
        }
        let answer = match self
            .clients
            .take_turn(self.alloc, turn, is_last, self.clock)
        {
            Ok(answer) => answer,
            Err(why) => {
                self.ended = Some(why);
                return Err(why);
            }
        };
        let client = turn.client;
        note(
            &mut self.taken,
            PlayedTurn {
                number,
                client,
                answer,
            },
        );
        Ok(())
    }

    /// Takes the next line of a client whose turn needn't wait.
    fn take_line(&mut self, client: u32) -> Taken
        requires left { 0 < count_left self.old.lines.items client }
        requires goes_on { self.old.ended ≡ None }
        requires free { found_waits self.old.clients (slice_get self.old.lines.items client) ≡ false }
        ensures takes { (b : PlayStart)
            → IsPlay St.told St.lasts St.stands b (play_state self.old.clients (C.stamps self.old.clock.now) self.old.lines.items self.old.taken.items self.old.ended)
            → IsPlay St.told St.lasts St.stands b (play_state self.new.clients (C.stamps self.new.clock.now) self.new.lines.items self.new.taken.items self.new.ended) }
        ensures clients { length self.new.lines.items ≡ length self.old.lines.items }
        ensures one { count_left self.new.lines.items client + 1 ≡ count_left self.old.lines.items client }
        ensures others { (other : ℕ) → other ≢ client → count_left self.new.lines.items other ≡ count_left self.old.lines.items other }
        ensures ends { EndsAs self.new.ended result }
        ensures place { self.new.clock.ghost_name ≡ self.old.clock.ghost_name }
    {
        let Some((turn, is_last)) = self.lines[client as usize].take_first() else {
            unreachable!()
        };
        match self.answer(client, turn, is_last) {
            Ok(()) => Taken::Done,
            Err(why) => ending(why),
        }
    }

    /// The store, the turns that were taken, how the run ended early, if it did, and the clock.
    pub(crate) fn into_parts(self) -> (St, Vec<PlayedTurn>, Option<TurnError>, &'c mut C)
        ensures store { St.state result.0 ≡ self.entry.clients.hub.store }
        ensures taken { result.1.items ≡ self.entry.taken.items }
        ensures ended { result.2 ≡ self.entry.ended }
        ensures clock { result.3.now ≡ self.entry.clock.now }
        ensures place { result.3.ghost_name ≡ self.entry.clock.ghost_name }
    {
        let SideBySide {
            alloc: _,
            clients,
            clock,
            lines: _,
            taken,
            ended,
        } = self;
        (clients.into_store(), taken, ended, clock)
    }
}

impl<'t, 'c, St: Store + Send, C: Clock + Send> Playing for SideBySide<'t, 'c, St, C> {
    ghost use Rattle.std.specs.Prelude.{length};
    ghost use Rattle.side_by_side.specs.Plays.{IsPlay, PlayStart, count_left, has_faulted, has_starved, play_state, waits};

    ghost clients_of = { λ s. length s.lines.items };

    ghost left_of = { λ s n. count_left s.lines.items n };

    ghost has_to_wait = { λ s n. waits s.clients s.lines.items s.ended n };

    ghost has_failed = { λ s. has_faulted s.ended };

    ghost lacks_memory = { λ s. has_starved s.ended };

    ghost takes = { λ old n t new. (new.clock.ghost_name ≡ old.clock.ghost_name) × ((b : PlayStart)
        → IsPlay St.told St.lasts St.stands b (play_state old.clients (C.stamps old.clock.now) old.lines.items old.taken.items old.ended)
        → IsPlay St.told St.lasts St.stands b (play_state new.clients (C.stamps new.clock.now) new.lines.items new.taken.items new.ended)) };

    fn clients(&self) -> u32 {
        self.lines.len() as u32
    }

    fn left(&self, client: u32) -> u64 {
        match self.lines.get(client as usize) {
            Some(lines) => lines.count(),
            None => 0,
        }
    }

    fn take(&mut self, client: u32) -> Taken {
        match self.ended {
            Some(why) => ending(why),
            None => {
                if self.is_held_up(client as usize) {
                    return Taken::Wait;
                }
                self.take_line(client)
            }
        }
    }
}
