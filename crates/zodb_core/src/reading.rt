//! The requests that read, and those that change the hub alone.

ghost use Rattle.std.specs.Prelude.{◌≡◌, ◌<◌, Option, List, None, false, true};
ghost use Rattle.zb_ids.specs.declared.stamp.Stamp.{Stamp};
ghost use Rattle.zodb_core.specs.HubState.{MakesStep, StandsForMachine, StepsSafely, rules_of};
ghost use Rattle.zodb_core.specs.Machine.{Machine, front_of, is_open_in};
ghost use Rattle.zodb_core.specs.Outcomes.{NoMemory, ReadingFailed, StoreFailed, outcome_of};
ghost use Rattle.zodb_core.specs.Replies.{fault_reply, loaded_reply};

use crate::hub::Hub;
use crate::reply::Reply;
use crate::request::Request;
use std::alloc::Global;
use zb_ids::{Oid, Tid};
use zb_model::{Found, Refs, Refusal, Resolver, Store, StoreError};

/// What a step is answered where the store answered an error.
pub(crate) fn fault_reply(error: StoreError) -> Reply
    ensures { result ≡ fault_reply error }
{
    match error {
        StoreError::StoreFault => Reply::Refused(Refusal::StoreFault),
        StoreError::ReadFault => Reply::Refused(Refusal::ReadFault),
        StoreError::Memory => Reply::Refused(Refusal::Memory),
    }
}

/// What a look-up is answered.
fn loaded_reply(oid: Oid, found: Found, upto: Tid, switches: u64) -> Reply
    ensures { result ≡ loaded_reply oid found upto switches }
{
    match found {
        Found::Held { serial, bytes, end } => Reply::Loaded {
            serial,
            bytes,
            end,
            upto,
        },
        Found::Absent { serial: _ } => Reply::Nothing { oid, switches },
        Found::Nothing => Reply::Nothing { oid, switches },
    }
}

impl<St: Store, R: Resolver, F: Refs> Hub<St, R, F> {
    /// The tid after the newest.
    fn front_tid(&self) -> Tid
        requires whole { self.now.store.broken ≡ false }
        ensures value { St.told → result ≡ front_of self.now.store.list }
    {
        Tid(self.store.newest().0 + 1)
    }

    /// Where a view begins, and what the session wasn't told yet.
    pub(crate) fn front(&mut self, alloc: Global, session: u32) -> Reply
        requires whole { self.old.store.broken ≡ false }
        requires is_open { is_open_in self.old.sessions session ≡ true }
        ensures step { St.told → (m : Machine) → StandsForMachine self.old m → (stamps : Option (List Stamp)) →
            MakesStep (rules_of R.rules F.named self.old) m session Request.Front
            result self.old self.new stamps stamps }
        ensures safe { StepsSafely false result self.old self.new }
        ensures unread { ¬ (outcome_of result ≡ ReadingFailed) }
        ensures unwritten { ¬ (outcome_of result ≡ StoreFailed) }
        ensures log { self.new.store.log ≡ self.old.store.log }
    {
        let front = self.front_tid();
        let Ok(news) = self.journal.news(alloc, session) else {
            return Reply::Refused(Refusal::Memory);
        };
        self.journal.tell(session);
        Reply::Front {
            front,
            news,
            switches: self.switches,
        }
    }

    /// An object's last revision below a front.
    #[tactic(auto, using(crate::proofs::Stepping::load_answered))]
    pub(crate) fn load_before(&mut self, alloc: Global, session: u32, oid: Oid, front: Tid) -> Reply
        requires whole { self.old.store.broken ≡ false }
        requires is_open { is_open_in self.old.sessions session ≡ true }
        ensures step { St.told → (m : Machine) → StandsForMachine self.old m → (stamps : Option (List Stamp)) →
            MakesStep (rules_of R.rules F.named self.old) m session (Request.LoadBefore oid front)
            result self.old self.new stamps stamps }
        ensures safe { StepsSafely false result self.old self.new }
        ensures unwritten { ¬ (outcome_of result ≡ StoreFailed) }
        ensures log { self.new.store.log ≡ self.old.store.log }
    {
        let found = match self.store.load_before(alloc, oid, front) {
            Ok(found) => found,
            Err(error) => return fault_reply(error),
        };
        loaded_reply(oid, found, self.front_tid(), self.switches)
    }

    /// Every change of an object, the newest first.
    pub(crate) fn history(&mut self, alloc: Global, session: u32, oid: Oid) -> Reply
        requires whole { self.old.store.broken ≡ false }
        requires is_open { is_open_in self.old.sessions session ≡ true }
        ensures step { St.told → (m : Machine) → StandsForMachine self.old m → (stamps : Option (List Stamp)) →
            MakesStep (rules_of R.rules F.named self.old) m session (Request.History oid)
            result self.old self.new stamps stamps }
        ensures safe { StepsSafely false result self.old self.new }
        ensures unwritten { ¬ (outcome_of result ≡ StoreFailed) }
        ensures log { self.new.store.log ≡ self.old.store.log }
    {
        match self.store.history(alloc, oid) {
            Ok(list) => Reply::History { list },
            Err(error) => fault_reply(error),
        }
    }

    /// Every transaction that may be undone, the newest first.
    pub(crate) fn undo_log(&mut self, alloc: Global, session: u32) -> Reply
        requires whole { self.old.store.broken ≡ false }
        requires is_open { is_open_in self.old.sessions session ≡ true }
        ensures step { St.told → (m : Machine) → StandsForMachine self.old m → (stamps : Option (List Stamp)) →
            MakesStep (rules_of R.rules F.named self.old) m session Request.UndoLog
            result self.old self.new stamps stamps }
        ensures safe { StepsSafely false result self.old self.new }
        ensures unwritten { ¬ (outcome_of result ≡ StoreFailed) }
        ensures log { self.new.store.log ≡ self.old.store.log }
    {
        match self.store.undo_log(alloc) {
            Ok(list) => Reply::UndoLog { list },
            Err(error) => fault_reply(error),
        }
    }

    /// The numbers after the greatest are handed out, where there are so many.
    pub(crate) fn new_oids(&mut self, session: u32, count: u32) -> Reply
        requires whole { self.old.store.broken ≡ false }
        requires is_open { is_open_in self.old.sessions session ≡ true }
        requires some { 0 < count }
        ensures step { St.told → (m : Machine) → StandsForMachine self.old m → (stamps : Option (List Stamp)) →
            MakesStep (rules_of R.rules F.named self.old) m session (Request.NewOids count)
            result self.old self.new stamps stamps }
        ensures safe { StepsSafely false result self.old self.new }
        ensures unread { ¬ (outcome_of result ≡ ReadingFailed) }
        ensures unwritten { ¬ (outcome_of result ≡ StoreFailed) }
        ensures memory { ¬ (outcome_of result ≡ NoMemory) }
        ensures log { self.new.store.log ≡ self.old.store.log }
    {
        let before = self.greatest.0;
        let Some(last) = before.checked_add(u64::from(count)) else {
            return Reply::Refused(Refusal::OidsSpent);
        };
        self.greatest = Oid(last);
        Reply::Oids {
            first: Oid(before + 1),
            count,
        }
    }
}
