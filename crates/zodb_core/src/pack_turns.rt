//! The requests that pack in turns, between which others commit.

ghost use Rattle.std.specs.Prelude.{◌≡◌, ◌≤◌, Option, List, None, Some, IfErr, IfOk, IfSome, IsSome, false, true, length};
ghost use Rattle.zb_ids.specs.declared.stamp.Stamp.{Stamp};
ghost use Rattle.zb_model.specs.declared.data.Transaction.{Transaction};
ghost use Rattle.zb_volume.specs.declared.areas.Area.TheVariants.{Main};
ghost use Rattle.zb_volume.specs.Moments.{LeavesOnly, StaysAs};
ghost use Rattle.pack_reach.specs.Marking.{MayMark};
ghost use Rattle.pack_reach.specs.Outcomes.{ReadsToMark};
ghost use Rattle.zodb_core.specs.HubState.{IsBeforeOrBehind, KeepsPack, MakesStep, StandsForMachine, StepsSafely, may_write, rules_of};
ghost use Rattle.zodb_core.specs.Machine.{Machine, is_open_in};
ghost use Rattle.zodb_core.specs.Outcomes.{is_packed};
ghost use Rattle.zodb_core.specs.Packing.{IsFrontOf, IsMarkedTo, PassesTest, ReadsToTest, RefusesMarks, StopsSwitch, TakesTurnOf};
ghost use Rattle.zodb_core.specs.Packing.{copied_reply, goal_of, marked_reply, stop_reply, turn_stop};
ghost use Rattle.zodb_core.specs.Seen.{KeepsSeen};
ghost use Rattle.zodb_core.specs.Steps.{without_pack};

use crate::hub::Hub;
use crate::open_pack::{HubCopying, HubPack};
use crate::packing::{busy_with, pack_reply, running, tid_below};
use crate::reading::fault_reply;
use crate::reply::Reply;
use crate::request::Request;
use crate::vote::HubVote;
use crate::voting::is_fault;
use pack_reach::{Marked, Marker, PackRefusal};
use std::alloc::Global;
use zb_ids::{Oid, Tid};
use zb_model::{Copied, Refs, Refusal, Resolver, Store};

/// Why a pack isn't switched.
#[derive(Clone, Copy, Debug, PartialEq, Eq)]
pub(crate) enum SwitchStop {
    /// Its marks were refused.
    Marks(
        /// Why.
        PackRefusal,
    ),
    /// A commit led to an object whose records were to go.
    Overtaken {
        /// The object.
        oid: Oid,
        /// The commit.
        tid: Tid,
    },
}

impl From<PackRefusal> for SwitchStop {
    ghost use Rattle.zodb_core.specs.declared.pack_turns.SwitchStop.TheVariants.{Marks};

    ghost from_gives = { λ refusal stop. stop ≡ Marks refusal };

    fn from(refusal: PackRefusal) -> SwitchStop {
        SwitchStop::Marks(refusal)
    }
}

/// Why a turn isn't made at once: no pack is open, or another session has it, or its switch is next and a
/// vote is held.
fn turn_stop(pack: &Option<HubPack>, vote: &Option<HubVote>, session: u32) -> Option<Refusal>
    ensures { result ≡ turn_stop session vote.now pack.now }
{
    let Some(open) = pack else {
        return Some(Refusal::NoPack);
    };
    if open.session != session {
        return Some(Refusal::PackRunning {
            session: open.session,
        });
    }
    match open.copying {
        Some(copying) => {
            if copying.is_whole {
                busy_with(vote)
            } else {
                None
            }
        }
        None => None,
    }
}

/// What a turn that marked is answered.
fn marked_reply(marked: Marked) -> Reply
    ensures { result ≡ marked_reply marked }
{
    if marked.whole {
        return Reply::Marked {
            count: marked.count,
        };
    }
    Reply::Marking {
        count: marked.count,
    }
}

/// What a turn that copied is answered.
fn copied_reply(copied: Copied) -> Reply
    ensures { result ≡ copied_reply copied }
{
    if copied.whole {
        return Reply::Copied {
            count: copied.count,
        };
    }
    Reply::Copying {
        count: copied.count,
    }
}

/// What a switch that isn't made is answered.
fn stop_reply(stop: SwitchStop) -> Reply
    ensures { result ≡ stop_reply stop }
{
    match stop {
        SwitchStop::Marks(refusal) => pack_reply(refusal),
        SwitchStop::Overtaken { oid, tid } => Reply::Refused(Refusal::Overtaken { oid, tid }),
    }
}

/// The copying of a pack that begins once all is marked, behind so many entries of the journal.
fn copying_behind(is_marked: bool, entries: u64) -> Option<HubCopying>
    ensures begins { is_marked ≡ true → result ≡ Some (record { entries = entries; is_whole = false }) }
    ensures none { is_marked ≡ false → result ≡ None }
{
    if !is_marked {
        return None;
    }
    Some(HubCopying {
        entries,
        is_whole: false,
    })
}

/// The marks of one turn more; of a pack that doesn't collect, all marks. It only reads the store.
fn mark_more<St: Store, F: Refs>(
    alloc: Global,
    store: &mut St,
    refs: &F,
    tid: Tid,
    collects: bool,
    marker: Marker,
) -> Result<(Marker, Marked), PackRefusal>
    requires whole { (St.state store.old).broken ≡ false }
    requires same { marker.tid ≡ tid }
    requires may_mark { St.told → MayMark (F.named refs.now) (St.state store.old).list marker }
    ensures marked { St.told → IfOk result (λ made. IsMarkedTo collects (F.named refs.now) tid
        (St.state store.old).list marker.counted made.0 made.1.count made.1.whole) }
    ensures refused { St.told →
        IfErr result (RefusesMarks collects (F.named refs.now) tid (St.state store.old).list marker.counted) }
    ensures tid { IfOk result (λ made. made.0.tid ≡ tid) }
    ensures counted { IfOk result (λ made. made.0.counted ≡ made.1.count) }
    ensures read { ReadsToMark (St.state store.old) (St.state store.new) result }
{
    if !collects {
        let marker = Marker::without_collection(alloc, tid, store)?;
        let count = marker.set().len() as u64;
        return Ok((marker, Marked { count, whole: true }));
    }
    let mut marker = marker;
    let marked = marker.mark_turn(alloc, store, refs)?;
    Ok((marker, marked))
}

/// The marks of a pack that may be switched: no record that it must follow is unreadable, and no commit
/// overtook it. It only reads the store.
fn test_marks<St: Store, F: Refs>(
    alloc: Global,
    store: &mut St,
    refs: &F,
    collects: bool,
    marker: Marker,
) -> Result<Marker, SwitchStop>
    requires whole { (St.state store.old).broken ≡ false }
    ensures passes { St.told → (front commits : List Transaction) →
        IsFrontOf collects (F.named refs.now) (St.state store.old).list front commits marker →
        IfOk result (PassesTest collects (F.named refs.now) front commits marker) }
    ensures stops { St.told → (front commits : List Transaction) →
        IsFrontOf collects (F.named refs.now) (St.state store.old).list front commits marker →
        IfErr result (StopsSwitch collects (F.named refs.now) front commits marker) }
    ensures read { ReadsToTest (St.state store.old) (St.state store.new) result }
{
    if !collects {
        return Ok(marker);
    }
    let mut marker = marker;
    match marker.late(alloc, store, refs)? {
        Some((oid, tid)) => Err(SwitchStop::Overtaken { oid, tid }),
        None => Ok(marker),
    }
}

impl<St: Store, R: Resolver, F: Refs> Hub<St, R, F> {
    /// A pack up to a tid is begun, but never over the newest transaction.
    pub(crate) fn pack_begin(
        &mut self,
        alloc: Global,
        session: u32,
        tid: Tid,
        collect: bool,
    ) -> Reply
        requires whole { self.old.store.broken ≡ false }
        requires is_open { is_open_in self.old.sessions session ≡ true }
        ensures step { St.told → (m : Machine) → StandsForMachine self.old m → (stamps : Option (List Stamp)) →
            MakesStep (rules_of R.rules F.named self.old) m session (Request.PackBegin tid collect)
            result self.old self.new stamps stamps }
        ensures safe { StepsSafely true result self.old self.new }
        ensures unpacked { is_packed result ≡ false }
        ensures main { St.lasts → StaysAs Main self.old.store.log self.new.store.log }
    {
        if let Some(refusal) = running(&self.pack) {
            return Reply::Refused(refusal);
        }
        let up_to = tid_below(tid, self.store.newest());
        let packed = self.store.pack_point();
        if up_to <= packed {
            return Reply::Refused(Refusal::PackedAlready { packed });
        }
        let Ok(marker) = Marker::new(alloc, up_to) else {
            return Reply::Refused(Refusal::Memory);
        };
        match self.store.pack_begin(alloc, up_to) {
            Ok(()) => {}
            Err(error) => {
                self.failed = is_fault(error);
                return fault_reply(error);
            }
        }
        self.pack = Some(HubPack {
            session,
            tid: up_to,
            collects: collect,
            marker,
            copying: None,
        });
        Reply::Packing { tid: up_to }
    }

    /// A turn that marks. With a refusal the pack is dropped.
    fn mark_on(&mut self, alloc: Global, session: u32, pack: HubPack) -> Reply
        requires whole { self.old.store.broken ≡ false }
        requires none { self.old.pack ≡ None }
        requires keeps { KeepsPack St.told (F.named self.old.refs) self.old.store.list self.old.store.begun
            self.old.store.newest (length self.old.journal) pack }
        requires marking { pack.copying ≡ None }
        ensures step { St.told → (m : Machine) → StandsForMachine self.old (without_pack m) →
            TakesTurnOf self.old m session pack → (stamps : Option (List Stamp)) →
            MakesStep (rules_of R.rules F.named self.old) m session Request.PackTurn
            result self.old self.new stamps stamps }
        ensures safe { StepsSafely true result self.old self.new }
        ensures unpacked { is_packed result ≡ false }
        ensures log { self.new.store.log ≡ self.old.store.log }
    {
        let HubPack {
            session: owner,
            tid,
            collects,
            marker,
            copying: _,
        } = pack;
        let (marker, marked) = match mark_more(
            alloc,
            &mut self.store,
            &self.refs,
            tid,
            collects,
            marker,
        ) {
            Ok(made) => made,
            Err(refusal) => {
                self.store.pack_drop();
                return pack_reply(refusal);
            }
        };
        let copying = copying_behind(marked.whole, self.journal.len());
        self.pack = Some(HubPack {
            session: owner,
            tid,
            collects,
            marker,
            copying,
        });
        marked_reply(marked)
    }

    /// A turn that copies. With a refusal the pack is dropped.
    fn copy_on(&mut self, alloc: Global, session: u32, pack: HubPack, entries: u64) -> Reply
        requires whole { self.old.store.broken ≡ false }
        requires none { self.old.pack ≡ None }
        requires keeps { KeepsPack St.told (F.named self.old.refs) self.old.store.list self.old.store.begun
            self.old.store.newest (length self.old.journal) pack }
        requires copying { pack.copying ≡ Some (record { entries = entries; is_whole = false }) }
        requires within { entries ≤ length self.old.journal }
        ensures step { St.told → (m : Machine) → StandsForMachine self.old (without_pack m) →
            TakesTurnOf self.old m session pack → (stamps : Option (List Stamp)) →
            MakesStep (rules_of R.rules F.named self.old) m session Request.PackTurn
            result self.old self.new stamps stamps }
        ensures safe { StepsSafely true result self.old self.new }
        ensures unpacked { is_packed result ≡ false }
        ensures main { St.lasts → StaysAs Main self.old.store.log self.new.store.log }
    {
        let HubPack {
            session: owner,
            tid,
            collects,
            marker,
            copying: _,
        } = pack;
        let copied = match self.store.pack_copy(alloc, marker.set()) {
            Ok(copied) => copied,
            Err(error) => {
                self.failed = is_fault(error);
                return fault_reply(error);
            }
        };
        self.pack = Some(HubPack {
            session: owner,
            tid,
            collects,
            marker,
            copying: Some(HubCopying {
                entries,
                is_whole: copied.whole,
            }),
        });
        copied_reply(copied)
    }

    /// The turn that switches. With a refusal the pack is dropped.
    #[tactic(auto, using(zb_model::specs::StayLaws::stays_same, zb_model::specs::StayLaws::stays_from))]
    fn switch_on(&mut self, alloc: Global, session: u32, pack: HubPack) -> Reply
        requires whole { self.old.store.broken ≡ false }
        requires is_open { is_open_in self.old.sessions session ≡ true }
        requires none { self.old.pack ≡ None }
        requires free { self.old.vote ≡ None }
        requires keeps { KeepsPack St.told (F.named self.old.refs) self.old.store.list self.old.store.begun
            self.old.store.newest (length self.old.journal) pack }
        requires copied { IfSome pack.copying (λ k. k.is_whole ≡ true) }
        requires some { IsSome pack.copying }
        ensures step { St.told → (m : Machine) → StandsForMachine self.old (without_pack m) →
            TakesTurnOf self.old m session pack → (stamps : Option (List Stamp)) →
            MakesStep (rules_of R.rules F.named self.old) m session Request.PackTurn
            result self.old self.new stamps stamps }
        ensures safe { StepsSafely true result self.old self.new }
        ensures views { St.told → KeepsSeen (F.named self.old.refs) (goal_of (Some pack)) Request.PackTurn result
            self.old.store.list self.new.store.list }
        ensures main { St.lasts → may_write false result ≡ false →
            StaysAs Main self.old.store.log self.new.store.log }
        ensures any_moment { St.lasts → St.told → (m : Machine) → StandsForMachine self.old (without_pack m) →
            TakesTurnOf self.old m session pack →
            LeavesOnly Main (IsBeforeOrBehind St.stands (rules_of R.rules F.named self.old) m session Request.PackTurn)
            self.old.store.log self.new.store.log }
    {
        let HubPack {
            session: _,
            tid,
            collects,
            marker,
            copying: _,
        } = pack;
        let marker = match test_marks(alloc, &mut self.store, &self.refs, collects, marker) {
            Ok(marker) => marker,
            Err(stop) => {
                self.store.pack_drop();
                return stop_reply(stop);
            }
        };
        self.switch(alloc, session, tid, marker.set(), false)
    }

    /// The next turn of the session's pack: it marks, it copies, or it switches.
    #[tactic(auto, using(crate::proofs::Switches::turn_refused, crate::proofs::Switches::turn_open, crate::specs::SwitchLaws::unpacked_keeps, crate::proofs::Votes::moments_kept, zb_model::specs::StayLaws::stays_same, zb_model::specs::StayLaws::stays_from))]
    pub(crate) fn pack_turn(&mut self, alloc: Global, session: u32) -> Reply
        requires whole { self.old.store.broken ≡ false }
        requires is_open { is_open_in self.old.sessions session ≡ true }
        ensures step { St.told → (m : Machine) → StandsForMachine self.old m → (stamps : Option (List Stamp)) →
            MakesStep (rules_of R.rules F.named self.old) m session Request.PackTurn
            result self.old self.new stamps stamps }
        ensures safe { StepsSafely true result self.old self.new }
        ensures views { St.told → KeepsSeen (F.named self.old.refs) (goal_of self.old.pack) Request.PackTurn result
            self.old.store.list self.new.store.list }
        ensures main { St.lasts → may_write false result ≡ false →
            StaysAs Main self.old.store.log self.new.store.log }
        ensures any_moment { St.lasts → St.told → (m : Machine) → StandsForMachine self.old m →
            LeavesOnly Main (IsBeforeOrBehind St.stands (rules_of R.rules F.named self.old) m session Request.PackTurn)
            self.old.store.log self.new.store.log }
    {
        if let Some(refusal) = turn_stop(&self.pack, &self.vote, session) {
            return Reply::Refused(refusal);
        }
        let Some(pack) = self.pack.take() else {
            return Reply::Refused(Refusal::NoPack);
        };
        let Some(copying) = pack.copying else {
            return self.mark_on(alloc, session, pack);
        };
        if copying.is_whole {
            return self.switch_on(alloc, session, pack);
        }
        self.copy_on(alloc, session, pack, copying.entries)
    }
}
