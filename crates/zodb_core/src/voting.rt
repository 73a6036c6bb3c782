//! The requests that vote.

ghost use Rattle.std.specs.Prelude.{◌≡◌, [], ◌<◌, ◌≤◌, ◌-◌, ◌^◌, None, Ok, Option, List, ℕ, IfNone, IfSome, false, true, length, map, All, nat_eq};
ghost use Rattle.std.specs.List.{IsDistinct};
ghost use Rattle.zb_ids.specs.declared.stamp.Stamp.{Stamp};
ghost use Rattle.zb_volume.specs.declared.areas.Area.TheVariants.{Main, Side};
ghost use Rattle.zb_volume.specs.Moments.{LeavesOnly, StaysAs};
ghost use Rattle.zb_model.specs.Voting.{IsFilled, NamesRevision, voted_change};
ghost use Rattle.zodb_core.specs.Holding.{AreShort, HoldsByClock, IsNextTid, held_refusal, is_fault};
ghost use Rattle.zodb_core.specs.HubState.{IsBeforeOrBehind, StandsForMachine, StepsByClock, StepsSafely, rules_of};
ghost use Rattle.zodb_core.specs.Machine.{Machine, is_open_in};
ghost use Rattle.zodb_core.specs.Replies.{undo_reply, vote_reply};

use crate::ending::has_vote;
use crate::hub::Hub;
use crate::oids::changed_oids;
use crate::reading::fault_reply;
use crate::reply::Reply;
use crate::request::Request;
use crate::texts::Texts;
use crate::vote::{HubVote, VotedEntry};
use commit_phases::{Pending, VoteRefusal, decide};
use std::alloc::Global;
use undo_records::{UndoRefusal, undo};
use zb_ids::{ListOf, Tid, next_tid};
use zb_model::{NewChange, NewTransaction, Refs, Refusal, Resolver, Store, StoreError};
use zb_outside::Clock;

/// How many changes the journal may have.
pub const JOURNAL_LIMIT: u64 = 8_388_608;

/// The tid after the newest by the clock's next stamp, where one is left.
#[tactic(auto, using(crate::proofs::Holding::tick_left, crate::proofs::Holding::tick_spent))]
fn tick<C: Clock>(newest: Tid, clock: &mut C) -> Option<Tid>
    requires { newest < 2 ^ 64 - 1 }
    ensures { IsNextTid newest (C.stamps clock.old) (C.stamps clock.new) result }
{
    let stamp = clock.stamp();
    let Ok(tid) = next_tid(newest, stamp) else {
        return None;
    };
    if tid >= Tid(u64::MAX) {
        return None;
    }
    Some(tid)
}

/// Whether the store failed.
pub(crate) fn is_fault(error: StoreError) -> bool
    ensures { result ≡ is_fault error }
{
    match error {
        StoreError::StoreFault => true,
        StoreError::ReadFault => false,
        StoreError::Memory => false,
    }
}

/// Why a session may not vote while the vote is held.
fn vote_refusal(vote: &Option<HubVote>, session: u32) -> Option<Refusal>
    ensures { result ≡ held_refusal session vote.now }
{
    match vote {
        Some(held) => {
            if held.session == session {
                Some(Refusal::Voted)
            } else {
                Some(Refusal::Busy {
                    holder: held.session,
                })
            }
        }
        None => None,
    }
}

/// What an undo that is refused is answered.
fn undo_reply(refusal: UndoRefusal) -> Reply
    ensures { result ≡ undo_reply refusal }
{
    match refusal {
        UndoRefusal::UndoUnknown { tid } => Reply::Refused(Refusal::UndoUnknown { tid }),
        UndoRefusal::UndoPacked { tid } => Reply::Refused(Refusal::UndoPacked { tid }),
        UndoRefusal::UndoConflict { oid, later } => {
            Reply::Refused(Refusal::UndoConflict { oid, later })
        }
        UndoRefusal::ReadFault => Reply::Refused(Refusal::ReadFault),
        UndoRefusal::Memory => Reply::Refused(Refusal::Memory),
    }
}

/// What a vote that is refused is answered.
fn vote_reply(refusal: VoteRefusal) -> Reply
    ensures { result ≡ vote_reply refusal }
{
    match refusal {
        VoteRefusal::Conflict {
            oid,
            base,
            current,
            why,
        } => Reply::Refused(Refusal::Conflict {
            oid,
            base,
            current,
            why,
        }),
        VoteRefusal::NothingToDelete { oid, current } => {
            Reply::Refused(Refusal::NothingToDelete { oid, current })
        }
        VoteRefusal::ReadConflict { oid, base, current } => {
            Reply::Refused(Refusal::ReadConflict { oid, base, current })
        }
        VoteRefusal::TooLong { length } => Reply::Refused(Refusal::TooLong { length }),
        VoteRefusal::ReadFault => Reply::Refused(Refusal::ReadFault),
        VoteRefusal::Memory => Reply::Refused(Refusal::Memory),
    }
}

impl<St: Store, R: Resolver, F: Refs> Hub<St, R, F> {
    /// What was decided is voted, and the session holds the vote.
    #[tactic(auto, using(crate::proofs::Holding::hold_empty, crate::proofs::Holding::hold_full, crate::proofs::Holding::hold_starved, crate::proofs::Holding::hold_spent, crate::proofs::Holding::hold_voted, crate::proofs::Holding::hold_failed, crate::proofs::Holding::voted_oids, zb_model::specs::StayLaws::stays_same))]
    fn hold<C: Clock>(
        &mut self,
        alloc: Global,
        session: u32,
        texts: Texts,
        changes: ListOf<NewChange>,
        clock: &mut C,
    ) -> Reply
        requires whole { self.old.store.broken ≡ false }
        requires is_open { is_open_in self.old.sessions session ≡ true }
        requires free { self.old.vote ≡ None }
        requires short { AreShort texts }
        requires distinct { IsDistinct nat_eq (map (λ c. c.oid) changes) }
        requires filled { All (λ c. IsFilled c.content) changes }
        requires sound { St.told → All (λ c. NamesRevision self.old.store.list c.oid c.content) changes }
        ensures step { HoldsByClock St.told (rules_of R.rules F.named self.old) session texts changes
            result self.old self.new (C.stamps clock.old) (C.stamps clock.new) }
        ensures safe { StepsSafely false result self.old self.new }
        ensures side { St.lasts → StaysAs Side self.old.store.log self.new.store.log }
        ensures any_moment { St.lasts → St.told →
            LeavesOnly Main (λ bytes. St.stands bytes self.old.store.list) self.old.store.log self.new.store.log }
    {
        if changes.is_empty() {
            self.vote = Some(HubVote {
                session,
                writes: None,
            });
            return Reply::Voted;
        }
        let count = self.changes + changes.len() as u64;
        if count > JOURNAL_LIMIT {
            return Reply::Refused(Refusal::JournalFull { count });
        }
        let room = self.journal.reserve();
        let (Ok(oids), Ok(())) = (changed_oids(alloc, changes.as_slice()), room) else {
            return Reply::Refused(Refusal::Memory);
        };
        let Some(tid) = tick(self.store.newest(), clock) else {
            return Reply::Refused(Refusal::TidsSpent);
        };
        let new = NewTransaction {
            tid,
            user: texts.user,
            description: texts.description,
            extension: texts.extension,
            changes,
        };
        match self.store.vote(alloc, &new) {
            Ok(()) => {}
            Err(error) => {
                self.failed = is_fault(error);
                return fault_reply(error);
            }
        }
        self.vote = Some(HubVote {
            session,
            writes: Some(VotedEntry { tid, oids }),
        });
        Reply::Voted
    }

    /// The pending changes are voted on.
    #[tactic(auto, using(crate::proofs::Asking::vote_early, crate::proofs::Asking::vote_refused, crate::proofs::Asking::votes_for, crate::proofs::Asking::made_later, zb_model::specs::StayLaws::stays_same, zb_model::specs::StayLaws::stays_from))]
    pub(crate) fn vote<C: Clock>(
        &mut self,
        alloc: Global,
        session: u32,
        texts: Texts,
        pending: Pending,
        clock: &mut C,
    ) -> Reply
        requires whole { self.old.store.broken ≡ false }
        requires is_open { is_open_in self.old.sessions session ≡ true }
        requires short { AreShort texts }
        ensures step { StepsByClock St.told (rules_of R.rules F.named self.old) session
            (Request.Vote texts.user texts.description texts.extension pending)
            result self.old self.new (C.stamps clock.old) (C.stamps clock.new) }
        ensures safe { StepsSafely false result self.old self.new }
        ensures side { St.lasts → StaysAs Side self.old.store.log self.new.store.log }
        ensures any_moment { St.lasts → St.told →
            LeavesOnly Main (λ bytes. St.stands bytes self.old.store.list) self.old.store.log self.new.store.log }
    {
        if let Some(refusal) = vote_refusal(&self.vote, session) {
            return Reply::Refused(refusal);
        }
        let changes = match decide(alloc, &mut self.store, &self.resolver, pending) {
            Ok(changes) => changes,
            Err(refusal) => return vote_reply(refusal),
        };
        self.hold(alloc, session, texts, changes, clock)
    }

    /// The taking back of transactions is voted on.
    #[tactic(auto, using(crate::proofs::Asking::undo_early, crate::proofs::Asking::undo_refused, crate::proofs::Asking::undo_votes_for, crate::proofs::Asking::made_later, zb_model::specs::StayLaws::stays_same, zb_model::specs::StayLaws::stays_from))]
    pub(crate) fn undo<C: Clock>(
        &mut self,
        alloc: Global,
        session: u32,
        texts: Texts,
        tids: ListOf<Tid>,
        clock: &mut C,
    ) -> Reply
        requires whole { self.old.store.broken ≡ false }
        requires is_open { is_open_in self.old.sessions session ≡ true }
        requires short { AreShort texts }
        requires bare { texts.extension ≡ [] }
        ensures step { StepsByClock St.told (rules_of R.rules F.named self.old) session
            (Request.Undo texts.user texts.description tids)
            result self.old self.new (C.stamps clock.old) (C.stamps clock.new) }
        ensures safe { StepsSafely false result self.old self.new }
        ensures side { St.lasts → StaysAs Side self.old.store.log self.new.store.log }
        ensures any_moment { St.lasts → St.told →
            LeavesOnly Main (λ bytes. St.stands bytes self.old.store.list) self.old.store.log self.new.store.log }
    {
        if let Some(refusal) = vote_refusal(&self.vote, session) {
            return Reply::Refused(refusal);
        }
        let changes = match undo(alloc, &mut self.store, &self.resolver, tids.as_slice()) {
            Ok(changes) => changes,
            Err(refusal) => return undo_reply(refusal),
        };
        self.hold(alloc, session, texts, changes, clock)
    }
}
