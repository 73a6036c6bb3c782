//! The hub that threads share.

ghost use Rattle.std.specs.Prelude.{◌≡◌, [], List, length, false, IfOk, IfErr};
ghost use mathlib.Core.List.{IsPrefix};
ghost use Rattle.hub_clock.specs.Rules.{opening_view};
ghost use Rattle.zodb_core.specs.History.{Entry, IsLegalOver, counts_after};
ghost use Rattle.zodb_core.specs.HubState.{IsFitting, StandsForMachine, counts_of, rules_of};
ghost use Rattle.zodb_core.specs.Machine.{machine_over};
ghost use Rattle.hub_shared.specs.Calls.{HasCalled, HasEntered, HasHeard, IsNotBusy, IsRefusedBehind, SeesOn};
ghost use Rattle.hub_shared.specs.Seats.{HasLasted, machine_of};

use crate::entry::HistoryEntry;
use crate::heard::Heard;
use crate::locked::{LockedHub, needs_vote};
use crate::names::Origin;
use crate::rings::Rings;
use crate::tokens::{Ear, Pass, Seen};
use hub_clock::{ClockSeat, HubClock};
use std::alloc::Global;
use std::marker::Brand;
use std::sync::{Condvar, Mutex, Wait};
use zb_model::{Refs, Resolver, Store};
use zb_outside::Clock;
use zodb_core::{Hub, Reply, Request, SessionRefusal};

/// A hub that threads share. Each call but `watch` may wait for the lock; a pass, an ear and what was seen
/// go into a call and come back, so that two calls of one session never run at a time.
#[derive(Drop)]
pub struct Shared<St: Store, R: Resolver, F: Refs, C: Clock, J: Origin> {
    /// How many entries the history has.
    word: HubClock<HistoryEntry, J>,
    /// The hub.
    locked: Mutex<LockedHub<St, R, F, C, J>>,
    /// Rung behind each step of which an ear may hear.
    told: Condvar,
    /// Rung for one that waits, behind each step that may have left the vote free.
    freed: Condvar,
}

impl<St: Store + Drop, R: Resolver + Drop, F: Refs + Drop, C: Clock + Drop, J: Origin> Shared<
    St,
    R,
    F,
    C,
    J,
> {
    /// A new word's first seat, and the hub that is named. Nothing was seen yet.
    pub fn new(
        word: HubClock<HistoryEntry, J>,
        seat: ClockSeat<HistoryEntry, J>,
        hub: Hub<St, R, F>,
        clock: C,
    ) -> (Shared<St, R, F, C, J>, Seen<J>)
        requires seat { seat ≡ opening_view }
        requires empty { hub.sessions ≡ [] }
        requires rules { rules_of R.rules F.named hub ≡ J.rules }
        requires counts { counts_of hub.store ≡ J.counts }
        requires log { hub.store.log ≡ J.log }
        requires broken { hub.store.broken ≡ J.broken }
        requires stands { St.told → StandsForMachine hub (machine_over J.list) }
        ensures { result.1 ≡ [] }
    {
        let (locked, seat) = LockedHub::new(&word, seat, hub, clock);
        let shared = Shared {
            word,
            locked: Mutex::new(locked),
            told: Condvar::new(),
            freed: Condvar::new(),
        };
        (shared, Seen { seat })
    }

    /// Opens a session. What was seen then is what the pass has seen, where one is given.
    pub fn enter<W: Wait>(
        &self,
        rt: &W,
        seen: Seen<J>,
    ) -> (Seen<J>, Result<Pass<J>, SessionRefusal>)
        ensures begins { IsPrefix seen result.0 }
        ensures legal { St.told → IsLegalOver J.rules J.list J.counts result.0 }
        ensures ok { IfOk result.1 (λ pass. HasEntered result.0 pass) }
        ensures err { IfErr result.1 (λ refusal. IsRefusedBehind result.0 refusal) }
    {
        let Seen { seat } = seen;
        let (seat, entered) = self.locked.lock(rt).enter(&self.word, seat);
        let seen = Seen { seat };
        match entered {
            Ok((session, seat)) => (seen, Ok(Pass { session, seat })),
            Err(refusal) => (seen, Err(refusal)),
        }
    }

    /// Two that have seen what one had. It takes no lock.
    pub fn fork(&self, seen: Seen<J>) -> (Seen<J>, Seen<J>)
        ensures one { result.0 ≡ seen }
        ensures other { result.1 ≡ seen }
    {
        let Seen { mut seat } = seen;
        let copied = self.word.copy(&mut seat);
        (Seen { seat }, Seen { seat: copied })
    }

    /// Makes a step of the pass's session. The history that the pass then has seen ends with it, and has no
    /// other entry of the session behind the pass's last one.
    pub fn call<W: Wait>(
        &self,
        rt: &W,
        alloc: Global,
        pass: Pass<J>,
        request: Request,
    ) -> (Pass<J>, Reply)
        requires { IsFitting request }
        ensures { HasCalled St.told J.rules J.list J.counts request result.1 pass result.0 }
    {
        let Pass { session, seat } = pass;
        let mut locked = self.locked.lock(rt);
        let before = locked.outlook(&request);
        let (seat, reply) = locked.call::<Brand>(&self.word, alloc, seat, session, request);
        let rings = locked.rings(session, before);
        drop(locked);
        self.ring(rings);
        (Pass { session, seat }, reply)
    }

    /// The same, but a vote or an undo first waits until no other session holds the vote.
    pub fn call_waiting<W: Wait>(
        &self,
        rt: &W,
        alloc: Global,
        pass: Pass<J>,
        request: Request,
    ) -> (Pass<J>, Reply)
        requires { IsFitting request }
        ensures called { HasCalled St.told J.rules J.list J.counts request result.1 pass result.0 }
        ensures free { St.told → IsNotBusy request result.1 }
    {
        if !needs_vote(&request) {
            return self.call(rt, alloc, pass, request);
        }
        let Pass { session, seat } = pass;
        let mut locked = self
            .freed
            .wait_while(rt, self.locked.lock(rt), |locked| locked.is_held(session));
        let before = locked.outlook(&request);
        let (seat, reply) = locked.call::<Brand>(&self.word, alloc, seat, session, request);
        let rings = locked.rings(session, before);
        drop(locked);
        self.ring(rings);
        (Pass { session, seat }, reply)
    }

    /// Wakes those whom a step may concern: first one that waits for the vote, which rings for the next
    /// where it leaves the vote free, and then each ear.
    fn ring(&self, rings: Rings) {
        if rings.voter {
            self.freed.notify_one();
        }
        if rings.ears {
            self.told.notify_all();
        }
    }

    /// The number of entries of the history. It takes no lock and never waits.
    pub fn watch(&self, pass: Pass<J>) -> (Pass<J>, u64)
        ensures count { result.1 ≡ length result.0.seen }
        ensures pass { SeesOn pass result.0 }
    {
        let Pass { session, mut seat } = pass;
        let count = self.word.observe(&mut seat);
        (Pass { session, seat }, count)
    }

    /// Both passes see one history.
    pub fn meet<W: Wait>(&self, rt: &W, a: Pass<J>, b: Pass<J>) -> (Pass<J>, Pass<J>)
        ensures one { result.0.seen ≡ result.1.seen }
        ensures first { SeesOn a result.0 }
        ensures second { SeesOn b result.1 }
        ensures legal { St.told → IsLegalOver J.rules J.list J.counts result.0.seen }
    {
        let Pass {
            session: first,
            seat: one,
        } = a;
        let Pass {
            session: second,
            seat: other,
        } = b;
        let mut locked = self.locked.lock(rt);
        let one = locked.refresh(&self.word, one);
        let other = locked.refresh(&self.word, other);
        (
            Pass {
                session: first,
                seat: one,
            },
            Pass {
                session: second,
                seat: other,
            },
        )
    }

    /// A pass goes, and what it had seen is seen.
    pub fn leave<W: Wait>(&self, rt: &W, pass: Pass<J>, seen: Seen<J>) -> Seen<J>
        ensures pass { IsPrefix pass.seen result }
        ensures seen { IsPrefix seen result }
        ensures legal { St.told → IsLegalOver J.rules J.list J.counts result }
    {
        let Pass {
            session: _,
            seat: gone,
        } = pass;
        let Seen { seat } = seen;
        let mut locked = self.locked.lock(rt);
        let _gone = locked.refresh(&self.word, gone);
        Seen {
            seat: locked.refresh(&self.word, seat),
        }
    }

    /// An ear of the pass's session, which has seen what the pass then has, and was told the journal there.
    pub fn listen<W: Wait>(&self, rt: &W, pass: Pass<J>) -> (Pass<J>, Ear<J>)
        ensures pass { SeesOn pass result.0 }
        ensures session { result.1.session ≡ pass.session }
        ensures seen { result.1.seen ≡ result.0.seen }
        ensures legal { St.told → IsLegalOver J.rules J.list J.counts result.1.seen }
        ensures told { St.told → result.1.told ≡ length (machine_of J.rules J.list result.1.seen).journal }
    {
        let Pass { session, seat } = pass;
        let mut locked = self.locked.lock(rt);
        let mut seat = locked.refresh(&self.word, seat);
        let told = locked.entries();
        let copied = self.word.copy(&mut seat);
        (
            Pass { session, seat },
            Ear {
                session,
                told,
                seat: copied,
            },
        )
    }

    /// Waits until there is news for the ear's session, or it isn't open, and answers which.
    pub fn hear<W: Wait>(&self, rt: &W, alloc: Global, ear: Ear<J>) -> (Ear<J>, Heard)
        ensures begins { IsPrefix ear.seen result.0.seen }
        ensures session { result.0.session ≡ ear.session }
        ensures legal { St.told → IsLegalOver J.rules J.list J.counts result.0.seen }
        ensures memory { result.1 ≡ Heard.Memory → result.0 ≡ ear }
        ensures heard { St.told → HasHeard J.rules J.list ear result.0 result.1 }
    {
        let Ear {
            session,
            told,
            seat,
        } = ear;
        let mut locked = self.told.wait_while(
            rt,
            self.locked.lock(rt),
            |locked| locked.is_quiet(session, told),
        );
        let (seat, told, heard) = locked.hear(&self.word, alloc, seat, session, told);
        (
            Ear {
                session,
                told,
                seat,
            },
            heard,
        )
    }

    /// The hub and its clock, once no other thread shares them. The hub stands for the machine behind a legal
    /// history that begins with what was seen; its store has the counts of faults that this history tells,
    /// and failed only where the count of those that aren't of reads rose. Where the list lies on a disk,
    /// whatever a crash left at any moment is of the history.
    pub fn into_hub(self, seen: Seen<J>) -> (Hub<St, R, F>, C)
        ensures { (all : List Entry) × IsPrefix seen all × (St.told → IsLegalOver J.rules J.list J.counts all)
            × (St.told → StandsForMachine result.0 (machine_of J.rules J.list all))
            × (counts_after J.counts all ≡ counts_of result.0.store)
            × HasLasted St.lasts St.told St.stands J.rules J.list J.counts J.log J.broken all result.0 }
    {
        let Seen { seat } = seen;
        let Shared {
            word,
            locked,
            told: _,
            freed: _,
        } = self;
        let mut locked = locked.into_inner();
        let _seat = locked.refresh(&word, seat);
        locked.into_parts()
    }
}
