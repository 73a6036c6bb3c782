//! The hub: one store, and the sessions that read its list and add to it.

ghost use Rattle.std.specs.Prelude.{◌≡◌, ◌<◌, [], None, OnErr, IfErr, IfOk, IsErrOf, false, length};
ghost use Rattle.zb_volume.specs.declared.areas.Area.TheVariants.{Main};
ghost use Rattle.zb_volume.specs.Moments.{Leaves};
ghost use Rattle.zodb_core.specs.HubState.{MayRefuseSession, StandsForMachine, sessions_with};
ghost use Rattle.zodb_core.specs.Machine.{Machine, is_open_in, machine_over, session_limit, with_session};

use crate::errors::SessionRefusal;
use crate::open_pack::HubPack;
use crate::session_journal::SessionJournal;
use crate::vote::HubVote;
use std::alloc::Global;
use std::marker::Model;
use zb_ids::Oid;
use zb_model::{Refs, Resolver, Store};

/// How many sessions there can be.
pub const SESSION_LIMIT: u32 = 64;

/// One plain database with sessions, over a store, rules of merging, and references. Contracts see its
/// store and what it keeps beside it, and say for which machines it stands.
#[derive(Drop)]
pub struct Hub<St: Store, R: Resolver, F: Refs> {
    /// The list of transactions.
    pub(crate) store: St,
    /// How changes of one object are merged.
    pub(crate) resolver: R,
    /// Which objects a record names.
    pub(crate) refs: F,
    /// What happened to the list since the hub was made, and the sessions.
    pub(crate) journal: SessionJournal,
    /// How many changes the journal has.
    pub(crate) changes: u64,
    /// How often the list was packed.
    pub(crate) switches: u64,
    /// The greatest number of an object that stood in the list at any moment or was handed out.
    pub(crate) greatest: Oid,
    /// The vote, where one is held.
    pub(crate) vote: Option<HubVote>,
    /// The pack, where one is open.
    pub(crate) pack: Option<HubPack>,
    /// Whether the store failed.
    pub(crate) failed: bool,
}

impl<St: Store, R: Resolver, F: Refs> Model for Hub<St, R, F> {
    ghost use Rattle.std.specs.Coded.{codes, coded_ℕ};
    ghost use Rattle.std.specs.FinSet as set;
    ghost use Rattle.std.specs.Ordering.{nat_cmp};
    ghost use Rattle.zodb_core.specs.HubState.{HubState, HubKeeps};

    ghost Value = { HubState R F };

    ghost coded = { Prim.hlevel (codes, set.code {R = nat_cmp} coded_ℕ) };

    ghost view = { λ hub. record {
      store = St.state hub.store;
      resolver = hub.resolver;
      refs = hub.refs;
      journal = hub.journal.entries;
      greatest = hub.greatest;
      sessions = hub.journal.sessions;
      vote = hub.vote;
      pack = hub.pack;
    } };

    ghost invariant = { λ hub. HubKeeps St.told (St.state hub.store) hub.journal.entries hub.journal.capacity
        hub.changes hub.switches hub.journal.sessions hub.vote hub.pack hub.failed (F.named hub.refs) };
}

impl<St: Store, R: Resolver, F: Refs> Hub<St, R, F> {
    /// A hub without sessions over a store. It takes no memory.
    pub fn new(alloc: Global, store: St, resolver: R, refs: F) -> Hub<St, R, F>
        requires whole { (St.state store).broken ≡ false }
        requires free { (St.state store).voted ≡ None }
        ensures stands { St.told → StandsForMachine result (machine_over (St.state store).list) }
        ensures store { result.store ≡ St.state store }
        ensures resolver { result.resolver ≡ resolver }
        ensures refs { result.refs ≡ refs }
        ensures empty { result.sessions ≡ [] }
    {
        let greatest = store.greatest_oid();
        Hub {
            store,
            resolver,
            refs,
            journal: SessionJournal::new(alloc),
            changes: 0,
            switches: 0,
            greatest,
            vote: None,
            pack: None,
            failed: false,
        }
    }

    /// Whether the store has failed, so that every session is closed. Until then each crash between two
    /// steps leaves the list as it is, where it lies on a disk.
    pub fn has_failed(&self) -> bool
        ensures value { result ≡ self.now.store.broken }
        ensures lasting { St.lasts → result ≡ false →
            Leaves Main (λ bytes. St.stands bytes self.now.store.list) self.now.store.log }
    {
        self.failed
    }

    /// The law that until its store fails each crash leaves the list as it is, where it lies on a disk.
    pub fn lasting(&self)
        ensures lasting { St.lasts → self.now.store.broken ≡ false →
            Leaves Main (λ bytes. St.stands bytes self.now.store.list) self.now.store.log }
    {
        let _ = self.has_failed();
    }

    /// Whether a session is open: it was opened, it was not closed, and the store has not failed.
    #[tactic(auto, using(crate::proofs::Votes::open_known, crate::proofs::Votes::open_there))]
    pub fn is_open(&self, session: u32) -> bool
        ensures value { result ≡ is_open_in (sessions_with self.now.store.broken self.now.sessions) session }
    {
        if self.failed {
            return false;
        }
        self.journal.is_open(session)
    }

    /// Opens a session, and answers its number: they run from 0. It takes the room for what the
    /// session will be told. `TooManySessions` comes exactly where 64 sessions were opened. A session
    /// that is opened after a store fault is closed from the start.
    pub fn open_session(&mut self) -> Result<u32, SessionRefusal>
        ensures number { IfOk result (λ number. number ≡ length self.old.sessions) }
        ensures stands { (m : Machine) → StandsForMachine self.old m →
            IfOk result (λ _. StandsForMachine self.new (with_session m)) }
        ensures refused { IfErr result (MayRefuseSession (length self.old.sessions)) }
        ensures room { IfOk result (λ number. length self.old.sessions < session_limit) }
        ensures same { OnErr result (self.new ≡ self.old) }
        ensures store { self.new.store ≡ self.old.store }
        ensures resolver { self.new.resolver ≡ self.old.resolver }
        ensures refs { self.new.refs ≡ self.old.refs }
    {
        let count = self.journal.count();
        if count >= SESSION_LIMIT {
            return Err(SessionRefusal::TooManySessions { count });
        }
        self.journal.open(!self.failed)?;
        Ok(count)
    }
}

impl<St: Store, R: Resolver + Drop, F: Refs + Drop> Hub<St, R, F> {
    /// The store. A transaction that is voted stays so.
    pub fn into_store(self) -> St
        ensures { St.state result ≡ self.store }
    {
        let Hub {
            store,
            resolver: _,
            refs: _,
            journal: _,
            changes: _,
            switches: _,
            greatest: _,
            vote: _,
            pack: _,
            failed: _,
        } = self;
        store
    }
}
