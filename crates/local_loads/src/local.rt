//! Loads of a local client.

ghost use Rattle.std.specs.Prelude.{◌≡◌};
ghost use Rattle.zodb_core.specs.HubState.{IsFitting};
ghost use Rattle.local_loads.specs.Making.{IsFrontBehind, IsHubStep};

use crate::answers::{
    abort_answer, finish_answer, front_answer, is_committed, load_answer, oid_answer, vote_answer,
};
use crate::requests::{undo_request, vote_request};
use crate::told::Told;
use connection_view::{FrontView, Loaded, Loads};
use std::alloc::Global;
use zb_ids::{ListOf, Oid, Text8, Tid};
use zb_model::{PendingCheck, PendingStore, Refs, Refusal, Resolver, Store};
use zb_outside::Clock;
use zodb_core::{Hub, Reply, Request};

/// The hub, the number of a session, the clock, and what the session's client was told last: the calls of that
/// client, for one turn. Each call but a finish is at most one step of the hub. What its steps are answered, and
/// what they leave, `makes` of its calls says.
///
/// That a client isn't told what it has cached already, is all that its news says: where the list is as it was at
/// the front before, there is none, and else all that it has cached may have changed.
#[derive(Drop)]
pub struct LocalLoads<'h, 'c, St: Store, R: Resolver, F: Refs, C: Clock> {
    /// Where memory comes from.
    pub alloc: Global,
    /// The hub.
    pub hub: &'h mut Hub<St, R, F>,
    /// The number of the session.
    pub session: u32,
    /// The clock, which votes and undos read.
    pub clock: &'c mut C,
    /// What the client was told last, or `None` where it wasn't told anything yet.
    pub told: Option<Told>,
}

impl<'h, 'c, St: Store, R: Resolver, F: Refs, C: Clock> LocalLoads<'h, 'c, St, R, F, C> {
    /// The calls of one client over these parts, which are given back as calls leave them.
    pub fn new(
        alloc: Global,
        hub: &'h mut Hub<St, R, F>,
        session: u32,
        clock: &'c mut C,
        told: Option<Told>,
    ) -> LocalLoads<'h, 'c, St, R, F, C>
        ensures hub { result.hub.now ≡ hub.old }
        ensures hub_place { result.hub.ghost_name ≡ hub.entry.ghost_name }
        ensures session { result.session ≡ session }
        ensures clock { result.clock.now ≡ clock.old }
        ensures clock_place { result.clock.ghost_name ≡ clock.entry.ghost_name }
        ensures told { result.told ≡ told }
    {
        LocalLoads {
            alloc,
            hub,
            session,
            clock,
            told,
        }
    }

    /// A step of the session.
    fn step(&mut self, request: Request) -> Reply
        requires fitting { IsFitting request }
        ensures made { IsHubStep St.told St.lasts St.stands R.rules F.named self.old.session request result
            self.old.hub.now self.new.hub.now (C.stamps self.old.clock.now) (C.stamps self.new.clock.now) }
        ensures session { self.new.session ≡ self.old.session }
        ensures told { self.new.told ≡ self.old.told }
        ensures hub_place { self.new.hub.ghost_name ≡ self.old.hub.ghost_name }
        ensures clock_place { self.new.clock.ghost_name ≡ self.old.clock.ghost_name }
    {
        self.hub.step(self.alloc, self.session, request, self.clock)
    }

    /// Behind a commit the session takes a Front step, whatever that is answered.
    #[tactic(auto, using(crate::proofs::Calls::told_behind, crate::proofs::Calls::untold_behind))]
    fn tell(&mut self, committed: bool)
        ensures front { IsFrontBehind (IsHubStep St.told St.lasts St.stands R.rules F.named self.old.session) committed
            self.old.hub.now self.new.hub.now (C.stamps self.old.clock.now) (C.stamps self.new.clock.now) }
        ensures session { self.new.session ≡ self.old.session }
        ensures told { self.new.told ≡ self.old.told }
        ensures hub_place { self.new.hub.ghost_name ≡ self.old.hub.ghost_name }
        ensures clock_place { self.new.clock.ghost_name ≡ self.old.clock.ghost_name }
    {
        if !committed {
            return;
        }
        let _ = self.step(Request::Front);
    }
}

impl<'h, 'c, St: Store, R: Resolver, F: Refs, C: Clock> Loads for LocalLoads<'h, 'c, St, R, F, C> {
    ghost use Rattle.std.specs.Prelude.{ℕ};
    ghost use Rattle.std.specs.Borrow.{GName};
    ghost use Rattle.connection_view.specs.Views.{view_of};
    ghost use Rattle.local_loads.specs.Local.{MayBeTold, server_of};
    ghost use Rattle.local_loads.specs.Making.{IsHubStep, IsLocalCall};

    ghost told = { ⊥ };

    ghost state = { λ l. server_of l.hub.now };

    ghost stands = { λ l c. St.told × MayBeTold l.told l.hub.now c.told c.known };

    ghost fresh = { λ l c. view_of (server_of l.hub.now) };

    ghost Place = { GName × GName × ℕ };

    ghost place = { λ l. (l.hub.ghost_name, l.clock.ghost_name, l.session) };

    ghost makes = { λ old call new. IsLocalCall
        (IsHubStep St.told St.lasts St.stands R.rules F.named old.session) call
        (record { hub = old.hub.now; stamps = C.stamps old.clock.now; last = old.told })
        (record { hub = new.hub.now; stamps = C.stamps new.clock.now; last = new.told }) };

    ghost told_before = { λ l c stands. stands.1.later };

    fn front(&mut self) -> Result<FrontView, Refusal> {
        let reply = self.step(Request::Front);
        front_answer(self.alloc, &mut self.told, reply)
    }

    fn load(&mut self, oid: Oid, front: Tid) -> Result<Loaded, Refusal> {
        let reply = self.step(Request::LoadBefore { oid, front });
        load_answer(reply)
    }

    fn new_oid(&mut self) -> Result<Oid, Refusal> {
        let reply = self.step(Request::NewOids { count: 1 });
        oid_answer(reply)
    }

    fn vote(
        &mut self,
        user: &Text8,
        description: &Text8,
        stores: ListOf<PendingStore>,
        checks: ListOf<PendingCheck>,
    ) -> Result<(), Refusal> {
        let Ok(request) = vote_request(self.alloc, user, description, stores, checks) else {
            return Err(Refusal::Memory);
        };
        let reply = self.step(request);
        vote_answer(reply)
    }

    fn undo(&mut self, user: &Text8, description: &Text8, tids: &[Tid]) -> Result<(), Refusal> {
        let Ok(request) = undo_request(self.alloc, user, description, tids) else {
            return Err(Refusal::Memory);
        };
        let reply = self.step(request);
        vote_answer(reply)
    }

    fn finish(&mut self) -> Result<Option<Tid>, Refusal> {
        let reply = self.step(Request::Finish);
        self.tell(is_committed(&reply));
        finish_answer(reply)
    }

    fn abort(&mut self) -> Result<(), Refusal> {
        let reply = self.step(Request::Abort);
        abort_answer(reply)
    }
}
