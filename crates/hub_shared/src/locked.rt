//! What lies under the lock.

ghost use Rattle.std.specs.Prelude.{◌≡◌, ◌≢◌, ℕ, ◌+◌, ◌++◌, List, [], ◌∷◌, Some, None, true, false, length, IfOk, IfErr, ◌&&◌, ◌||◌, ◌==◌, not};
ghost use mathlib.Core.List.{IsPrefix};
ghost use Rattle.hub_clock.specs.Rules.{IsLast, MayPublish, entries_of, looker, opening_view};
ghost use Rattle.zodb_core.specs.Entries.{session_of};
ghost use Rattle.zodb_core.specs.History.{Entry, IsLegalOver, Opened, counts_after};
ghost use Rattle.zodb_core.specs.HubState.{IsFitting, StandsForMachine, counts_of, rules_of, sessions_with};
ghost use Rattle.zodb_core.specs.Machine.{Machine, machine_over};
ghost use Rattle.zodb_core.specs.Waiting.{is_held_by_another, needs_vote};
ghost use Rattle.hub_shared.specs.Calls.{HasCalled, HasEntered, IsHeard, IsNotBusy, IsRefusedBehind};
ghost use Rattle.hub_shared.specs.Seats.{HasLasted, HasPosted, HoldsSession, IsPosted, Listening, OnlyLooks, is_live, is_quiet_for, is_voting, keeper_for, known, machine_of, waits_for};

use crate::entry::HistoryEntry;
use crate::heard::Heard;
use crate::names::{Asked, Origin};
use crate::rings::{NOBODY, Outlook, Rings};
use hub_clock::{ClockName, ClockSeat, HubClock, NextEntry};
use std::alloc::Global;
use std::marker::{Brand, Model};
use zb_ids::Tid;
use zb_model::{Refs, Refusal, Resolver, Store};
use zb_outside::Clock;
use zodb_core::{Hub, Reply, Request, SessionRefusal};

/// The hub and its clock, with the seat that has seen the whole history. Contracts see the hub and the
/// history.
#[derive(Drop)]
pub(crate) struct LockedHub<St: Store, R: Resolver, F: Refs, C: Clock, J: Origin> {
    /// The hub.
    hub: Hub<St, R, F>,
    /// The clock.
    clock: C,
    /// The seat with the pen.
    seat: ClockSeat<HistoryEntry, J>,
}

impl<St: Store, R: Resolver, F: Refs, C: Clock, J: Origin> Model for LockedHub<St, R, F, C, J> {
    ghost use Rattle.std.specs.Coded.{codes, coded_ℕ};
    ghost use Rattle.std.specs.FinSet as set;
    ghost use Rattle.std.specs.Ordering.{nat_cmp};
    ghost use Rattle.zodb_core.specs.HubState.{rules_of};
    ghost use Rattle.hub_shared.specs.Seats.{HasLasted, LockKeeps, LockedState};

    ghost Value = { LockedState R F };

    ghost coded = { Prim.hlevel (codes, set.code {R = nat_cmp} coded_ℕ) };

    ghost view = { λ d. record { hub = d.hub; seen = d.seat.seen } };

    ghost invariant = { λ d. LockKeeps St.told J.rules (rules_of R.rules F.named d.hub) J.list
        J.counts d.seat d.hub
        × HasLasted St.lasts St.told St.stands J.rules J.list J.counts J.log J.broken d.seat.seen d.hub };
}

/// Adds the entry of a step, for which the hub and its clock have made it.
fn post_step<St: Store, R: Resolver, F: Refs, J: Origin, Q: Asked, N: NextEntry<HistoryEntry>>(
    word: &HubClock<HistoryEntry, J>,
    seat: &mut ClockSeat<HistoryEntry, J>,
    count: u64,
    session: u32,
    reply: &Reply,
    hub: &Hub<St, R, F>,
)
    requires named { (e : Entry) → N.is_next e →
        IsPosted St.told J.rules (rules_of R.rules F.named hub.now) J.list J.counts
        (λ xs. HasLasted St.lasts St.told St.stands J.rules J.list J.counts J.log J.broken xs hub.now)
        seat.old.seen hub.now session Q.request reply.now e }
    requires next { MayPublish session_of N.is_next count seat.old }
    ensures { HasPosted St.told J.rules (rules_of R.rules F.named hub.now) J.list J.counts
        (λ xs. HasLasted St.lasts St.told St.stands J.rules J.list J.counts J.log J.broken xs hub.now)
        seat.old.seen hub.now session Q.request reply.now seat.new }
{
    word.publish::<N>(seat, count);
}

/// Adds the opening of a session.
fn post_opening<J: ClockName, N: NextEntry<HistoryEntry>>(
    word: &HubClock<HistoryEntry, J>,
    seat: &mut ClockSeat<HistoryEntry, J>,
    count: u64,
    session: u32,
)
    requires named { (e : Entry) → N.is_next e → e ≡ Opened session }
    requires next { N.is_next (Opened session) }
    requires pen { seat.old.has_pen ≡ true }
    requires idle { seat.old.session ≡ None }
    requires new { entries_of session_of session seat.old.seen ≡ [] }
    requires count { count ≡ length seat.old.seen + 1 }
    ensures { seat.new ≡ keeper_for session (length seat.old.seen)
        (seat.old.seen ++ Opened session ∷ []) }
{
    word.publish::<N>(seat, count);
}

/// Whether a request needs the vote.
pub(crate) fn needs_vote(request: &Request) -> bool
    ensures { result ≡ needs_vote request.now }
{
    match request {
        Request::Vote {
            user: _,
            description: _,
            extension: _,
            pending: _,
        } => true,
        Request::Undo {
            user: _,
            description: _,
            tids: _,
        } => true,
        _ => false,
    }
}

impl<St: Store, R: Resolver, F: Refs, C: Clock, J: Origin> LockedHub<St, R, F, C, J> {
    /// The word's first seat with the hub that is named, and a seat that has seen nothing yet.
    pub(crate) fn new(
        word: &HubClock<HistoryEntry, J>,
        mut seat: ClockSeat<HistoryEntry, J>,
        hub: Hub<St, R, F>,
        clock: C,
    ) -> (LockedHub<St, R, F, C, J>, ClockSeat<HistoryEntry, J>)
        requires seat { seat ≡ opening_view }
        requires empty { hub.sessions ≡ [] }
        requires rules { rules_of R.rules F.named hub ≡ J.rules }
        requires counts { counts_of hub.store ≡ J.counts }
        requires log { hub.store.log ≡ J.log }
        requires broken { hub.store.broken ≡ J.broken }
        requires stands { St.told → StandsForMachine hub (machine_over J.list) }
        ensures { result.1 ≡ looker opening_view }
    {
        hub.lasting();
        let seen = word.copy(&mut seat);
        (LockedHub { hub, clock, seat }, seen)
    }

    /// Whether a session that needs the vote has to wait for another's.
    pub(crate) fn is_held(&self, session: u32) -> bool
        ensures { result ≡ waits_for self.now.hub session }
    {
        self.hub.is_open(session) && self.hub.is_held(session)
    }

    /// Whether there is nothing to hear for a session that was told so much.
    pub(crate) fn is_quiet(&self, session: u32, told: u64) -> bool
        ensures { result ≡ is_quiet_for self.now.hub session told }
    {
        self.hub.is_open(session) && !self.hub.has_news(session, told)
    }

    /// What is so before a step, by which `rings` tells whom the step may concern.
    pub(crate) fn outlook(&self, request: &Request) -> Outlook
        ensures entries { result.entries ≡ length self.now.hub.journal }
        ensures may_free { result.may_free ≡ (is_voting self.now.hub || needs_vote request.now) }
    {
        Outlook {
            entries: self.hub.entries(),
            may_free: self.hub.is_held(NOBODY) || needs_vote(request),
        }
    }

    /// Whom a session's step may concern: the ears, where the journal grew or the session isn't open any
    /// more, as behind a close and a store fault; one that waits for the vote, where it was held or asked
    /// for and isn't held now.
    pub(crate) fn rings(&self, session: u32, before: Outlook) -> Rings
        ensures ears { result.ears ≡ (not (before.entries == length self.now.hub.journal) || not (is_live self.now.hub session)) }
        ensures voter { result.voter ≡ (before.may_free && not (is_voting self.now.hub && is_live self.now.hub session)) }
    {
        let open = self.hub.is_open(session);
        Rings {
            ears: before.entries != self.hub.entries() || !open,
            voter: before.may_free && !(self.hub.is_held(NOBODY) && open),
        }
    }

    /// How many entries the journal has.
    pub(crate) fn entries(&self) -> u64
        ensures { result ≡ length self.now.hub.journal }
    {
        self.hub.entries()
    }

    /// The hub and its clock. The hub stands for the machine behind the history, and its store has
    /// the counts of faults that the history tells.
    pub(crate) fn into_parts(self) -> (Hub<St, R, F>, C)
        ensures legal { St.told → IsLegalOver J.rules J.list J.counts self.seen }
        ensures stands { St.told → StandsForMachine result.0 (machine_of J.rules J.list self.seen) }
        ensures counts { counts_after J.counts self.seen ≡ counts_of result.0.store }
        ensures lasted { HasLasted St.lasts St.told St.stands J.rules J.list J.counts J.log J.broken
            self.seen result.0 }
    {
        let LockedHub {
            hub,
            clock,
            seat: _,
        } = self;
        (hub, clock)
    }

    /// A seat sees the history as it is.
    pub(crate) fn refresh(
        &mut self,
        word: &HubClock<HistoryEntry, J>,
        seat: ClockSeat<HistoryEntry, J>,
    ) -> ClockSeat<HistoryEntry, J>
        requires { seat.has_pen ≡ false }
        ensures same { self.new ≡ self.old }
        ensures seen { result ≡ record {
          has_pen = false;
          session = seat.session;
          last =
              seat.last;
          seen = self.new.seen;
          told = [];
        } }
        ensures begins { IsPrefix seat.seen self.new.seen }
        ensures last { (s : ℕ) → seat.session ≡ Some s → IsLast session_of s self.new.seen seat.last }
        ensures legal { St.told → IsLegalOver J.rules J.list J.counts self.new.seen }
        ensures stands { St.told → StandsForMachine self.new.hub (machine_of J.rules J.list self.new.seen) }
    {
        word.join(&mut self.seat, seat);
        word.observe(&mut self.seat);
        word.part(&mut self.seat)
    }

    /// Opens a session.
    pub(crate) fn enter(
        &mut self,
        word: &HubClock<HistoryEntry, J>,
        seat: ClockSeat<HistoryEntry, J>,
    ) -> (
        ClockSeat<HistoryEntry, J>,
        Result<(u32, ClockSeat<HistoryEntry, J>), SessionRefusal>,
    )
        requires { OnlyLooks seat }
        ensures looks { OnlyLooks result.0 }
        ensures begins { IsPrefix seat.seen result.0.seen }
        ensures legal { St.told → IsLegalOver J.rules J.list J.counts result.0.seen }
        ensures ok { IfOk result.1 (λ r. HoldsSession r.0 r.1 × HasEntered result.0.seen (known r.0 r.1)) }
        ensures err { IfErr result.1 (λ refusal. IsRefusedBehind result.0.seen refusal) }
    {
        word.join(&mut self.seat, seat);
        let count = word.observe(&mut self.seat);
        if count == u64::MAX {
            return (word.part(&mut self.seat), Err(SessionRefusal::StepsSpent));
        }
        let session = match self.hub.open_session() {
            Ok(session) => session,
            Err(refusal) => return (word.part(&mut self.seat), Err(refusal)),
        };
        post_opening::<J, Brand>(word, &mut self.seat, count + 1, session);
        let seen = word.copy(&mut self.seat);
        (seen, Ok((session, word.part(&mut self.seat))))
    }

    /// A session's step.
    pub(crate) fn call<Q: Asked>(
        &mut self,
        word: &HubClock<HistoryEntry, J>,
        alloc: Global,
        seat: ClockSeat<HistoryEntry, J>,
        session: u32,
        request: Request,
    ) -> (ClockSeat<HistoryEntry, J>, Reply)
        requires seat { HoldsSession session seat }
        requires fitting { IsFitting request }
        requires named { Q.request ≡ request }
        ensures seat { HoldsSession session result.0 }
        ensures called { HasCalled St.told J.rules J.list J.counts request result.1 (known
            session seat) (known session result.0) }
        ensures busy { St.told → waits_for self.old.hub session ≡ false → IsNotBusy request result.1 }
    {
        word.join(&mut self.seat, seat);
        let count = word.observe(&mut self.seat);
        if count == u64::MAX {
            return (
                word.part(&mut self.seat),
                Reply::Refused(Refusal::StepsSpent),
            );
        }
        let reply = self.hub.step(alloc, session, request, &mut self.clock);
        post_step::<St, R, F, J, Q, Brand>(
            word,
            &mut self.seat,
            count + 1,
            session,
            &reply,
            &self.hub,
        );
        (word.part(&mut self.seat), reply)
    }

    /// What there is to hear for a session that was told so much, and how much it was told then. Memory
    /// leaves its seat as it was.
    pub(crate) fn hear(
        &mut self,
        word: &HubClock<HistoryEntry, J>,
        alloc: Global,
        mut seat: ClockSeat<HistoryEntry, J>,
        session: u32,
        told: u64,
    ) -> (ClockSeat<HistoryEntry, J>, u64, Heard)
        requires { OnlyLooks seat }
        ensures looks { OnlyLooks result.0 }
        ensures begins { IsPrefix seat.seen result.0.seen }
        ensures legal { St.told → IsLegalOver J.rules J.list J.counts result.0.seen }
        ensures same { self.new ≡ self.old }
        ensures whole { result.2 ≡ Heard.Memory → (result.0 ≡ seat) × (result.1 ≡ told) }
        ensures heard { St.told → is_quiet_for self.old.hub session told ≡ false → IsHeard
            (machine_of J.rules J.list result.0.seen) session told result.1 result.2 }
    {
        if !self.hub.is_open(session) {
            return (self.refresh(word, seat), told, Heard::Over);
        }
        match self.hub.news_after(alloc, session, told) {
            Ok(news) => {
                let front = Tid(self.hub.newest().0 + 1);
                let now = self.hub.entries();
                (self.refresh(word, seat), now, Heard::News { news, front })
            }
            Err(_) => {
                let copied = word.copy(&mut seat);
                let _copied = self.refresh(word, copied);
                (seat, told, Heard::Memory)
            }
        }
    }
}
