//! The request that packs in one step.

ghost use Rattle.std.specs.Prelude.{◌≡◌, ◌-◌, Option, List, None, Some, IfErr, IfOk, IsErrOf, OnErr, OnOk, true, false, min};
ghost use Rattle.zb_ids.specs.declared.stamp.Stamp.{Stamp};
ghost use Rattle.zb_volume.specs.declared.areas.Area.TheVariants.{Main};
ghost use Rattle.zb_volume.specs.Moments.{LeavesOnly, StaysAs};
ghost use Rattle.zb_model.specs.Packing.{packed_by};
ghost use Rattle.std.specs.Option.{ForSome};
ghost use Rattle.zb_model.specs.Packs.{IsCopyOf, IsPackCount, StandsForOneOfTwo};
ghost use Rattle.zb_model.specs.Stores.{HasStoreCause, UnlessFault};
ghost use Rattle.pack_reach.specs.Outcomes.{ReadsToMark};
ghost use Rattle.zodb_core.specs.HubState.{IsBeforeOrBehind, MakesStep, StandsForMachine, StepsSafely, may_write, rules_of, tid_begun};
ghost use Rattle.zodb_core.specs.Steps.{without_pack};
ghost use Rattle.zodb_core.specs.Machine.{Machine, is_open_in};
ghost use Rattle.zodb_core.specs.Outcomes.{is_packed};
ghost use Rattle.zodb_core.specs.Packing.{AreAllMarked, PacksTo, RefusesPack, busy_with, goal_of, running};
ghost use Rattle.zodb_core.specs.Replies.{pack_reply};
ghost use Rattle.zodb_core.specs.Seen.{KeepsSeen};

use crate::hub::Hub;
use crate::journal::JournalEntry;
use crate::open_pack::HubPack;
use crate::reading::fault_reply;
use crate::reply::Reply;
use crate::request::Request;
use crate::vote::HubVote;
use crate::voting::is_fault;
use pack_reach::{Marker, PackRefusal};
use std::alloc::Global;
use zb_ids::Tid;
use zb_model::{OidSet, Packed, Refs, Refusal, Resolver, Store, StoreError};

/// Why no pack is begun while one is open.
pub(crate) fn running(pack: &Option<HubPack>) -> Option<Refusal>
    ensures { result ≡ running pack.now }
{
    match pack {
        Some(open) => Some(Refusal::PackRunning {
            session: open.session,
        }),
        None => None,
    }
}

/// Why nothing is packed while the vote is held.
pub(crate) fn busy_with(vote: &Option<HubVote>) -> Option<Refusal>
    ensures { result ≡ busy_with vote.now }
{
    match vote {
        Some(held) => Some(Refusal::Busy {
            holder: held.session,
        }),
        None => None,
    }
}

/// How far a pack goes that is asked to go up to a tid: never over the newest transaction.
pub(crate) fn tid_below(tid: Tid, newest: Tid) -> Tid
    ensures { result ≡ min tid (newest - 1) }
{
    let before = Tid(newest.0.saturating_sub(1));
    if tid < before { tid } else { before }
}

/// What a pack is answered where its marks were refused.
pub(crate) fn pack_reply(refusal: PackRefusal) -> Reply
    ensures { result ≡ pack_reply refusal }
{
    match refusal {
        PackRefusal::Unreadable { oid, tid } => Reply::Refused(Refusal::Unreadable { oid, tid }),
        PackRefusal::ReadFault => Reply::Refused(Refusal::ReadFault),
        PackRefusal::Memory => Reply::Refused(Refusal::Memory),
    }
}

/// The marks of all that a pack up to a tid keeps. It only reads the store.
fn mark_all<St: Store, F: Refs>(
    alloc: Global,
    store: &mut St,
    refs: &F,
    tid: Tid,
    collect: bool,
) -> Result<Marker, PackRefusal>
    requires whole { (St.state store.old).broken ≡ false }
    ensures marked { St.told →
        IfOk result (AreAllMarked collect (F.named refs.now) tid (St.state store.old).list) }
    ensures refused { St.told →
        IfErr result (RefusesPack collect (F.named refs.now) tid (St.state store.old).list) }
    ensures read { ReadsToMark (St.state store.old) (St.state store.new) result }
{
    if !collect {
        return Marker::without_collection(alloc, tid, store);
    }
    let mut marker = Marker::new(alloc, tid)?;
    marker.mark_all(alloc, store, refs)?;
    Ok(marker)
}

/// What stays of a list that is packed up to a tid, with just the objects of a set kept, is copied: what is
/// left of a copy that is begun, or all, where none is (`fresh`). The copy is put in the place of the list.
/// With an error the list is as it was, or, where it is a store fault, a crash leaves one of the two.
fn replace<St: Store>(
    alloc: Global,
    store: &mut St,
    tid: Tid,
    keep: &OidSet,
    fresh: bool,
) -> Result<Packed, StoreError>
    requires whole { (St.state store.old).broken ≡ false }
    requires free { (St.state store.old).voted ≡ None }
    requires begun { fresh ≡ false → tid_begun (St.state store.old).begun ≡ Some tid }
    requires copy { fresh ≡ false → St.told →
        ForSome (St.state store.old).begun (IsCopyOf keep.now (St.state store.old).list) }
    ensures whole { UnlessFault result ((St.state store.new).broken ≡ false) }
    ensures breaks { IsErrOf result StoreError.StoreFault → (St.state store.new).broken ≡ true }
    ensures list { St.told → OnOk result
        ((St.state store.new).list ≡ packed_by tid keep.now (St.state store.old).list) }
    ensures counts { St.told → IfOk result (λ counts.
        IsPackCount (St.state store.old).list (St.state store.new).list counts) }
    ensures unchanged { St.told → OnErr result
        (UnlessFault result ((St.state store.new).list ≡ (St.state store.old).list)) }
    ensures begun { (St.state store.new).begun ≡ None }
    ensures voted { (St.state store.new).voted ≡ None }
    ensures main { St.lasts → OnErr result
        (UnlessFault result (StaysAs Main (St.state store.old).log (St.state store.new).log)) }
    ensures any_moment { St.lasts → St.told → LeavesOnly Main
        (StandsForOneOfTwo St.stands (St.state store.old).list (packed_by tid keep.now (St.state store.old).list))
        (St.state store.old).log (St.state store.new).log }
    ensures cause { HasStoreCause (St.state store.old) (St.state store.new) result }
{
    if !fresh {
        return store.pack_switch(alloc, keep);
    }
    match store.pack_begin(alloc, tid) {
        Ok(()) => {}
        Err(error) => return Err(error),
    }
    store.pack_switch(alloc, keep)
}

impl<St: Store, R: Resolver, F: Refs> Hub<St, R, F> {
    /// The list is packed up to a tid, with just the objects of a set kept, from the copy that the store has
    /// begun, or from a fresh one.
    #[tactic(auto, using(crate::proofs::Votes::moments_kept, zb_model::specs::StayLaws::stays_same))]
    pub(crate) fn switch(
        &mut self,
        alloc: Global,
        session: u32,
        tid: Tid,
        keep: &OidSet,
        fresh: bool,
    ) -> Reply
        requires whole { self.old.store.broken ≡ false }
        requires is_open { is_open_in self.old.sessions session ≡ true }
        requires free { self.old.vote ≡ None }
        requires none { self.old.pack ≡ None }
        requires begun { fresh ≡ false → tid_begun self.old.store.begun ≡ Some tid }
        requires copy { fresh ≡ false → St.told →
            ForSome self.old.store.begun (IsCopyOf keep.now self.old.store.list) }
        ensures step { St.told → (m : Machine) → StandsForMachine self.old (without_pack m) → (q : Request) →
            PacksTo (rules_of R.rules F.named self.old) m session q tid keep.now → (stamps : Option (List Stamp)) →
            MakesStep (rules_of R.rules F.named self.old) m session q
            result self.old self.new stamps stamps }
        ensures safe { StepsSafely true result self.old self.new }
        ensures list { St.told → is_packed result ≡ true →
            self.new.store.list ≡ packed_by tid keep.now self.old.store.list }
        ensures main { St.lasts → may_write false result ≡ false →
            StaysAs Main self.old.store.log self.new.store.log }
        ensures any_moment { St.lasts → St.told →
            (m : Machine) → StandsForMachine self.old (without_pack m) → (q : Request) →
            PacksTo (rules_of R.rules F.named self.old) m session q tid keep.now →
            LeavesOnly Main (IsBeforeOrBehind St.stands (rules_of R.rules F.named self.old) m session q)
            self.old.store.log self.new.store.log }
    {
        let Ok(()) = self.journal.reserve() else {
            return Reply::Refused(Refusal::Memory);
        };
        let packed = match replace(alloc, &mut self.store, tid, keep, fresh) {
            Ok(packed) => packed,
            Err(error) => {
                self.failed = is_fault(error);
                return fault_reply(error);
            }
        };
        self.switches += 1;
        self.journal.push(JournalEntry::Packed { tid });
        Reply::Packed {
            kept: packed.kept,
            dropped: packed.dropped,
        }
    }

    /// The list is packed up to a tid, but never over the newest transaction: what the pack keeps is marked,
    /// what stays is copied, and the copy is put in the place of the list.
    #[tactic(auto, using(crate::proofs::Switching::pack_runs, crate::proofs::Switching::pack_busy, crate::proofs::Switching::pack_already, crate::proofs::Switching::none_busy, crate::proofs::Turns::none_running, crate::specs::SwitchLaws::unpacked_keeps, crate::proofs::Votes::moments_kept, zb_model::specs::StayLaws::stays_same, zb_model::specs::StayLaws::stays_from))]
    pub(crate) fn pack(&mut self, alloc: Global, session: u32, tid: Tid, collect: bool) -> Reply
        requires whole { self.old.store.broken ≡ false }
        requires is_open { is_open_in self.old.sessions session ≡ true }
        ensures step { St.told → (m : Machine) → StandsForMachine self.old m → (stamps : Option (List Stamp)) →
            MakesStep (rules_of R.rules F.named self.old) m session (Request.Pack tid collect)
            result self.old self.new stamps stamps }
        ensures safe { StepsSafely true result self.old self.new }
        ensures views { St.told →
            KeepsSeen (F.named self.old.refs) (goal_of self.old.pack) (Request.Pack tid collect) result
            self.old.store.list self.new.store.list }
        ensures main { St.lasts → may_write false result ≡ false →
            StaysAs Main self.old.store.log self.new.store.log }
        ensures any_moment { St.lasts → St.told → (m : Machine) → StandsForMachine self.old m →
            LeavesOnly Main
            (IsBeforeOrBehind St.stands (rules_of R.rules F.named self.old) m session (Request.Pack tid collect))
            self.old.store.log self.new.store.log }
    {
        if let Some(refusal) = running(&self.pack) {
            return Reply::Refused(refusal);
        }
        if let Some(refusal) = busy_with(&self.vote) {
            return Reply::Refused(refusal);
        }
        let up_to = tid_below(tid, self.store.newest());
        let packed = self.store.pack_point();
        if up_to <= packed {
            return Reply::Refused(Refusal::PackedAlready { packed });
        }
        let marker = match mark_all(alloc, &mut self.store, &self.refs, up_to, collect) {
            Ok(marker) => marker,
            Err(refusal) => return pack_reply(refusal),
        };
        self.switch(alloc, session, up_to, marker.set(), true)
    }
}
