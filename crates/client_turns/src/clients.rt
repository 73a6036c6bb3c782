//! The clients of one hub.

ghost use Rattle.std.specs.Prelude.{◌≡◌, ◌<◌, None, Some, Option, List, false, length, slice_get};
ghost use Rattle.zb_ids.specs.declared.stamp.Stamp.{Stamp};
ghost use Rattle.zb_volume.specs.declared.areas.Area.TheVariants.{Main};
ghost use Rattle.zb_volume.specs.Moments.{Leaves};
ghost use Rattle.zodb_core.specs.HubState.{IsFitting, counts_of, rules_of};
ghost use Rattle.local_loads.specs.Making.{IsHubStep};
ghost use Rattle.client_turns.specs.declared.member.Member.{Member};
ghost use Rattle.client_turns.specs.Asking.{IsPlain};
ghost use Rattle.client_turns.specs.Clients.{Moment, first_moment};
ghost use Rattle.client_turns.specs.Members.{holds_link, session_of};
ghost use Rattle.client_turns.specs.Standing.{LeadsTo, StandsForMoment};
ghost use Rattle.client_turns.specs.Steps.{IsStepAt};

use crate::member::{Member, bytes_sent, place_of, session_at};
use std::alloc::Global;
use std::marker::Model;
use tree_attempts::NodeCache;
use zb_model::{Refs, Resolver, Store};
use zb_outside::Clock;
use zb_script::Name;
use zodb_core::{Hub, Reply, Request};

/// The clients of one hub, whose lines are taken one at a time. Contracts see the hub and the clients,
/// and say for which moments they stand.
#[derive(Drop)]
pub struct Clients<St: Store, R: Resolver, F: Refs> {
    /// The hub.
    pub(crate) hub: Hub<St, R, F>,
    /// The clients, in the order in which they opened their sessions.
    pub(crate) clients: Vec<Member>,
    /// What objects of trees held when they were read.
    pub(crate) cache: NodeCache,
}

impl<St: Store, R: Resolver, F: Refs> Model for Clients<St, R, F> {
    ghost use Rattle.std.specs.Coded.{codes, coded_ℕ};
    ghost use Rattle.std.specs.FinSet as set;
    ghost use Rattle.std.specs.Ordering.{nat_cmp};
    ghost use Rattle.client_turns.specs.Standing.{ClientsState};

    ghost Value = { ClientsState R F };

    ghost coded = { Prim.hlevel (codes, set.code {R = nat_cmp} coded_ℕ) };

    ghost view = { λ clients. record { hub = clients.hub; clients = clients.clients.items } };
}

impl<St: Store, R: Resolver, F: Refs> Clients<St, R, F> {
    /// A hub without clients over a store. It takes no memory.
    pub fn new(alloc: Global, store: St, resolver: R, refs: F) -> Clients<St, R, F>
        requires whole { (St.state store).broken ≡ false }
        requires free { (St.state store).voted ≡ None }
        ensures moment { St.told → (stamps : Option (List Stamp)) → StandsForMoment result stamps
            (first_moment (St.state store).list stamps (counts_of (St.state store))) }
        ensures store { result.hub.store ≡ St.state store }
        ensures resolver { result.hub.resolver ≡ resolver }
        ensures refs { result.hub.refs ≡ refs }
    {
        Clients {
            hub: Hub::new(alloc, store, resolver, refs),
            clients: Vec::new(alloc),
            cache: NodeCache::new(alloc),
        }
    }

    /// The law that until their store fails each crash leaves the list as it is, where it lies on a disk.
    pub fn lasting(&self)
        ensures lasting { St.lasts → self.now.hub.store.broken ≡ false →
            Leaves Main (λ bytes. St.stands bytes self.now.hub.store.list) self.now.hub.store.log }
    {
        self.hub.lasting();
    }

    /// How many bytes the first client of this name has sent over its link, with the frames around its messages: from 0 to
    /// 2^64-1, where the count stays. It is 0 where the client has no link, and `None` where no client has the name. What
    /// a client is answered never tells it: it shows that a link is used, and that a cache is.
    pub fn bytes_sent(&self, name: &Name) -> Option<u64> {
        let at = place_of(self.clients.as_slice(), name)?;
        Some(bytes_sent(&self.clients[at]))
    }

    /// A step of the session of the client at a place, which asks nothing of a connection. Where it has a link, what is at that
    /// isn't known any more.
    pub(crate) fn step<C: Clock>(
        &mut self,
        alloc: Global,
        at: usize,
        request: Request,
        clock: &mut C,
    ) -> Reply
        requires place { at < length self.old.clients }
        requires fitting { IsFitting request }
        requires plain { IsPlain request }
        ensures step { St.told → (m : Moment) → StandsForMoment self.old (C.stamps clock.old) m →
            (x : Member) → slice_get self.old.clients at ≡ Some x → holds_link x ≡ false →
            LeadsTo (IsStepAt (rules_of R.rules F.named self.old.hub) m (session_of x) request result)
            self.new (C.stamps clock.new) }
        ensures made { (x : Member) → slice_get self.old.clients at ≡ Some x →
            IsHubStep St.told St.lasts St.stands R.rules F.named (session_of x) request result
            self.old.hub self.new.hub (C.stamps clock.old) (C.stamps clock.new) }
        ensures clients { self.new.clients ≡ self.old.clients }
    {
        let session = session_at(self.clients.as_slice(), at);
        self.hub.step(alloc, session, request, clock)
    }
}

impl<St: Store, R: Resolver + Drop, F: Refs + Drop> Clients<St, R, F> {
    /// The store. A transaction that is voted stays so.
    pub fn into_store(self) -> St
        ensures store { St.state result ≡ self.hub.store }
    {
        let Clients {
            hub,
            clients: _,
            cache: _,
        } = self;
        hub.into_store()
    }
}
