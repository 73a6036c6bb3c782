//! The requests that end a vote or a session.

ghost use Rattle.std.specs.Prelude.{◌≡◌, ◌⊎◌, None, Option, Some, List, OnErr, OnOk, false, true, map};
ghost use Rattle.zb_base.specs.Counts.{HasCause};
ghost use Rattle.zb_ids.specs.declared.stamp.Stamp.{Stamp};
ghost use Rattle.zb_volume.specs.declared.areas.Area.TheVariants.{Main, Side};
ghost use Rattle.zb_volume.specs.Moments.{LeavesOnly, StaysAs};
ghost use Rattle.zodb_core.specs.HubState.{IsBeforeOrBehind, MakesStep, StandsForMachine, StepsSafely, has_vote, owns_pack, rules_of, writes_of};
ghost use Rattle.zodb_core.specs.Packing.{without_pack_of};
ghost use Rattle.zb_model.specs.Stores.{DropKeepsRest};
ghost use Rattle.zodb_core.specs.Machine.{Machine, is_open_in};
ghost use Rattle.zodb_core.specs.Outcomes.{NoMemory, ReadingFailed, failed, holds_writes, outcome_of};
ghost use Rattle.zodb_core.specs.Steps.{without_vote};

use crate::hub::Hub;
use crate::journal::JournalEntry;
use crate::oids::greatest_with;
use crate::open_pack::HubPack;
use crate::reply::Reply;
use crate::request::Request;
use crate::vote::{HubVote, VotedEntry};
use zb_model::{Refs, Refusal, Resolver, Store};
use zb_volume::StoreFault;

/// Whether a session holds the vote.
pub(crate) fn has_vote(vote: &Option<HubVote>, session: u32) -> bool
    ensures { result ≡ has_vote session vote.now }
{
    match vote {
        Some(held) => held.session == session,
        None => false,
    }
}

/// Whether a session has the open pack.
fn owns_pack(pack: &Option<HubPack>, session: u32) -> bool
    ensures { result ≡ owns_pack session pack.now }
{
    match pack {
        Some(open) => open.session == session,
        None => false,
    }
}

/// The vote is dropped, and what it was to write is handed out.
fn take_writes(vote: &mut Option<HubVote>) -> Option<VotedEntry>
    ensures writes { result ≡ writes_of vote.old }
    ensures none { vote.new ≡ None }
{
    match vote.take() {
        Some(vote) => vote.writes,
        None => None,
    }
}

impl<St: Store, R: Resolver, F: Refs> Hub<St, R, F> {
    /// What the session has voted is appended to the list. It takes no memory.
    #[tactic(auto, using(crate::proofs::Votes::finish_empty, crate::proofs::Votes::finish_committed, crate::proofs::Votes::moments_kept, crate::proofs::Votes::moments_finish, zb_model::specs::StayLaws::stays_same))]
    pub(crate) fn finish(&mut self, session: u32) -> Reply
        requires whole { self.old.store.broken ≡ false }
        requires is_open { is_open_in self.old.sessions session ≡ true }
        ensures step { St.told → (m : Machine) → StandsForMachine self.old m → (stamps : Option (List Stamp)) →
            MakesStep (rules_of R.rules F.named self.old) m session Request.Finish
            result self.old self.new stamps stamps }
        ensures safe { StepsSafely false result self.old self.new }
        ensures side { St.lasts → StaysAs Side self.old.store.log self.new.store.log }
        ensures memory { ¬ (outcome_of result ≡ NoMemory) }
        ensures unread { ¬ (outcome_of result ≡ ReadingFailed) }
        ensures any_moment { St.lasts → St.told → (m : Machine) → StandsForMachine self.old m →
            LeavesOnly Main (IsBeforeOrBehind St.stands (rules_of R.rules F.named self.old) m session Request.Finish)
            self.old.store.log self.new.store.log }
    {
        if !has_vote(&self.vote, session) {
            return Reply::Refused(Refusal::NotVoted);
        }
        let Some(entry) = take_writes(&mut self.vote) else {
            return Reply::Empty;
        };
        let Ok(()) = self.store.finish() else {
            self.failed = true;
            return Reply::Refused(Refusal::StoreFault);
        };
        self.changes += entry.oids.len() as u64;
        self.greatest = greatest_with(entry.oids.as_slice(), self.greatest);
        let tid = entry.tid;
        self.journal.push(JournalEntry::Commit {
            session,
            tid,
            oids: entry.oids,
        });
        Reply::Committed { tid }
    }

    /// What the session has voted is dropped, if it holds the vote.
    #[tactic(auto, using(crate::proofs::Votes::dropped_none, crate::proofs::Votes::dropped_writes, crate::proofs::Votes::dropped_failed, crate::proofs::Votes::held_writes, zb_model::specs::StayLaws::stays_same))]
    fn drop_vote(&mut self, session: u32) -> Result<(), StoreFault>
        requires whole { self.old.store.broken ≡ false }
        ensures dropped { St.told → (m : Machine) → StandsForMachine self.old m →
            OnOk result (StandsForMachine self.new (without_vote m session)) }
        ensures failed { St.told → (m : Machine) → StandsForMachine self.old m →
            OnErr result (StandsForMachine self.new (failed m)) }
        ensures writes { St.told → (m : Machine) → StandsForMachine self.old m →
            OnErr result (holds_writes session m.vote ≡ true) }
        ensures whole { OnOk result (self.new.store.broken ≡ false) }
        ensures breaks { OnErr result (self.new.store.broken ≡ true) }
        ensures resolver { self.new.resolver ≡ self.old.resolver }
        ensures refs { self.new.refs ≡ self.old.refs }
        ensures sessions { self.new.sessions ≡ self.old.sessions }
        ensures reads { self.new.store.read_faults ≡ self.old.store.read_faults }
        ensures cause { HasCause self.old.store.faults self.new.store.faults result }
        ensures uncounted { OnOk result (self.new.store.faults ≡ self.old.store.faults) }
        ensures side { St.lasts → StaysAs Side self.old.store.log self.new.store.log }
        ensures any_moment { St.lasts → St.told →
            LeavesOnly Main (λ bytes. St.stands bytes self.old.store.list) self.old.store.log self.new.store.log }
    {
        if !has_vote(&self.vote, session) {
            return Ok(());
        }
        let Some(_) = take_writes(&mut self.vote) else {
            return Ok(());
        };
        let Ok(()) = self.store.abort() else {
            self.failed = true;
            return Err(StoreFault);
        };
        Ok(())
    }

    /// What the session has voted is dropped. It takes no memory.
    #[tactic(auto, using(crate::proofs::Votes::abort_failed, crate::proofs::Votes::abort_dropped, crate::proofs::Votes::moments_same))]
    pub(crate) fn abort(&mut self, session: u32) -> Reply
        requires whole { self.old.store.broken ≡ false }
        requires is_open { is_open_in self.old.sessions session ≡ true }
        ensures step { St.told → (m : Machine) → StandsForMachine self.old m → (stamps : Option (List Stamp)) →
            MakesStep (rules_of R.rules F.named self.old) m session Request.Abort
            result self.old self.new stamps stamps }
        ensures safe { StepsSafely false result self.old self.new }
        ensures side { St.lasts → StaysAs Side self.old.store.log self.new.store.log }
        ensures memory { ¬ (outcome_of result ≡ NoMemory) }
        ensures unread { ¬ (outcome_of result ≡ ReadingFailed) }
        ensures any_moment { St.lasts → St.told → (m : Machine) → StandsForMachine self.old m →
            LeavesOnly Main (IsBeforeOrBehind St.stands (rules_of R.rules F.named self.old) m session Request.Abort)
            self.old.store.log self.new.store.log }
    {
        match self.drop_vote(session) {
            Ok(()) => Reply::Aborted,
            Err(StoreFault) => Reply::Refused(Refusal::StoreFault),
        }
    }

    /// The pack of a session is dropped, if it has the one that is open.
    #[tactic(auto, using(crate::proofs::Votes::pack_disowned, crate::proofs::Votes::pack_unowned))]
    fn drop_pack(&mut self, session: u32)
        requires whole { self.old.store.broken ≡ false }
        ensures dropped { (m : Machine) → StandsForMachine self.old m →
            StandsForMachine self.new (without_pack_of m session) }
        ensures store { (self.new.store ≡ self.old.store) ⊎ DropKeepsRest self.old.store self.new.store }
        ensures whole { self.new.store.broken ≡ false }
        ensures log { self.new.store.log ≡ self.old.store.log }
        ensures reads { self.new.store.read_faults ≡ self.old.store.read_faults }
        ensures faults { self.new.store.faults ≡ self.old.store.faults }
        ensures resolver { self.new.resolver ≡ self.old.resolver }
        ensures refs { self.new.refs ≡ self.old.refs }
        ensures sessions { self.new.sessions ≡ self.old.sessions }
        ensures journal { self.new.journal ≡ self.old.journal }
    {
        if owns_pack(&self.pack, session) {
            self.pack = None;
            self.store.pack_drop();
        }
    }

    /// The end of the session: what it has voted is dropped, and so is its pack. It takes no memory.
    #[tactic(auto, using(crate::proofs::Votes::close_failed, crate::proofs::Votes::close_dropped, crate::proofs::Votes::moments_same))]
    pub(crate) fn close(&mut self, session: u32) -> Reply
        requires whole { self.old.store.broken ≡ false }
        requires is_open { is_open_in self.old.sessions session ≡ true }
        ensures step { St.told → (m : Machine) → StandsForMachine self.old m → (stamps : Option (List Stamp)) →
            MakesStep (rules_of R.rules F.named self.old) m session Request.Close
            result self.old self.new stamps stamps }
        ensures safe { StepsSafely false result self.old self.new }
        ensures side { St.lasts → StaysAs Side self.old.store.log self.new.store.log }
        ensures memory { ¬ (outcome_of result ≡ NoMemory) }
        ensures unread { ¬ (outcome_of result ≡ ReadingFailed) }
        ensures any_moment { St.lasts → St.told → (m : Machine) → StandsForMachine self.old m →
            LeavesOnly Main (IsBeforeOrBehind St.stands (rules_of R.rules F.named self.old) m session Request.Close)
            self.old.store.log self.new.store.log }
    {
        let Ok(()) = self.drop_vote(session) else {
            return Reply::Refused(Refusal::StoreFault);
        };
        self.drop_pack(session);
        self.journal.close(session);
        Reply::Closed
    }
}
