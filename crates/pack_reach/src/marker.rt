//! The marks of a pack.

ghost use Rattle.std.specs.Prelude.{◌≡◌, ◌<◌, ◌≤◌, ◌+◌, ◌-◌, ◌^◌, ◌∷◌, ◌⊎◌, [], ℕ, List, Option, Some, None, false, true, IfOk};
ghost use Rattle.std.specs.Prelude.{OnOk, OnErr, if◌then◌else◌, length, min, nat_lt, slice_get};
ghost use Rattle.std.specs.Ordering.{nat_cmp};
ghost use Rattle.std.specs.FinSet as set;
ghost use Rattle.zb_model.specs.declared.data.Transaction.{Transaction};
ghost use Rattle.zb_model.specs.declared.data.Content.TheVariants as content;
ghost use Rattle.zb_model.specs.Database.{newest_tid};
ghost use Rattle.zb_model.specs.Queries.{first_after, transaction_at};
ghost use Rattle.zb_model.specs.SerialLaws.{RisesTo};
ghost use Rattle.zb_model.specs.Stores.{IsOnlyRead};
ghost use Rattle.pack_reach.specs.Marking.{FollowsOne, HasGrown, IsChangeRead, IsComplete, IsFoundRead, IsLeastFollowed};
ghost use Rattle.pack_reach.specs.Marking.{IsMarking, IsNextSeen, IsOneFollowed, IsPartlyRead, IsPast, IsRead};
ghost use Rattle.pack_reach.specs.Marking.{IsSound, IsTransactionRead, KeepsMarks, MarksFresh, MayMark, MayRead};
ghost use Rattle.pack_reach.specs.Marking.{MayReadChange, MayReadFound, MayReadTransaction, OnlyMarks, new_marker};
ghost use Rattle.pack_reach.specs.Marking.{revised_as, with_mark, with_marks, with_note, with_record};
ghost use Rattle.pack_reach.specs.Reach.{is_at_most};
ghost use Rattle.pack_reach.specs.Late.{lesser_some};
ghost use Rattle.pack_reach.specs.Outcomes.{readable_as};

use crate::refusal::PackRefusal;
use std::alloc::{AllocError, Global};
use std::collections::VecDeque;
use std::marker::Model;
use zb_ids::{Oid, Tid};
use zb_model::{Change, Content, Found, OidSet, Refs, RefsError, Store, StoreError};

/// How far the marks of a pack have come.
#[derive(Clone, Copy, Debug, PartialEq, Eq)]
pub struct Marked {
    /// How many objects are marked so far, 64 more a turn.
    pub count: u64,
    /// Whether that is all that the pack reaches.
    pub whole: bool,
}

/// The marks of one pack: the objects that it reaches, as far as they were found.
///
/// A path starts at the root, at an object that is changed after the pack's tid, or at one that a record
/// written after it names. Each further step is a reference of an object's last revision up to that tid.
/// Objects that are marked wait in line until that revision is read, so each is read once. A record may
/// name many, so more objects may be marked than the turns have answered.
///
/// Contracts see how far it has come. Each call leaves marks that stand for the list that they were made
/// over, also where it is refused, and a later call goes on from there.
#[derive(Drop)]
pub struct Marker {
    /// The pack's tid.
    pub(crate) tid: Tid,
    /// The transactions above the pack's tid are read up to this one.
    pub(crate) seen: Tid,
    /// The objects that are marked.
    pub(crate) marks: OidSet,
    /// Those of them whose last revision up to the pack's tid isn't read yet.
    pub(crate) waiting: VecDeque<Oid>,
    /// Of the records that were met and can't be read, the least.
    pub(crate) unreadable: Option<(Oid, Tid)>,
    /// How many marked objects the turns have answered so far.
    pub(crate) counted: u64,
}

impl Model for Marker {
    ghost use Rattle.pack_reach.specs.Marking.{MarkerState, marker_code};

    ghost Value = { MarkerState };

    ghost coded = { marker_code };

    ghost view = { λ a. record {
      tid = a.tid;
      seen = a.seen;
      set = a.marks;
      waiting = a.waiting.items;
      unreadable = a.unreadable;
      counted = a.counted;
    } };
}

impl Marker {
    /// The marks of a pack up to a tid: nothing is marked. The one error is want of memory.
    pub fn new(alloc: Global, tid: Tid) -> Result<Marker, AllocError>
        ensures new { IfOk result (λ made. made ≡ new_marker tid) }
        ensures may_mark { IfOk result
            (λ made. (named : List ℕ → Option (List ℕ)) (list : List Transaction) → MayMark named list made) }
    {
        Ok(Marker {
            tid,
            seen: tid,
            marks: OidSet::new(alloc),
            waiting: VecDeque::with_capacity(alloc, 64)?,
            unreadable: None,
            counted: 0,
        })
    }

    /// The objects that are marked.
    pub fn set(&self) -> &OidSet
        ensures { result.now ≡ self.now.set }
    {
        &self.marks
    }

    /// Marks an object, which then waits, unless it is marked already. Where there is no memory the
    /// marks stay as they were.
    fn mark(&mut self, oid: Oid) -> Result<(), AllocError>
        ensures ok { OnOk result (self.new ≡ with_mark self.old oid) }
        ensures err { OnErr result (self.new ≡ self.old) }
    {
        if self.marks.contains(oid) {
            return Ok(());
        }
        self.waiting.push_back(oid)?;
        match self.marks.insert(oid) {
            Ok(_) => Ok(()),
            Err(error) => {
                let _ = self.waiting.pop_back();
                Err(error)
            }
        }
    }

    /// How many objects are marked.
    fn count(&self) -> u64
        ensures count { result ≡ set.len self.now.set }
        ensures bound { result < 2 ^ 63 }
    {
        self.marks.len() as u64
    }

    /// Whether more objects are marked than this.
    fn is_past(&self, limit: u64) -> bool
        ensures past { result ≡ nat_lt limit (set.len self.now.set) }
        ensures bound { set.len self.now.set < 2 ^ 63 }
    {
        limit < self.count()
    }

    /// Refuses the record that was met and can't be read, if there is one, the least of several.
    pub(crate) fn readable(&self) -> Result<(), PackRefusal>
        ensures { result ≡ readable_as self.now.unreadable }
    {
        match self.unreadable {
            Some((oid, tid)) => Err(PackRefusal::Unreadable { oid, tid }),
            None => Ok(()),
        }
    }

    /// Whether some object waits.
    fn waits(&self) -> bool
        ensures { result ≡ nat_lt 0 (length self.now.waiting) }
    {
        !self.waiting.is_empty()
    }

    /// The object that waits first, if one waits.
    fn first_waiting(&self) -> Option<Oid>
        ensures { result ≡ slice_get self.now.waiting 0 }
    {
        match self.waiting.front() {
            Some(oid) => Some(*oid),
            None => None,
        }
    }

    /// Marks objects in turn. Where there is no memory, those are marked that stand in front of one that
    /// isn't.
    fn mark_each(&mut self, oids: &[Oid]) -> Result<(), AllocError>
        ensures ok { OnOk result (self.new ≡ with_marks self.old oids.now) }
        ensures err { OnErr result (IsPartlyRead (Some oids.now) self.old self.new) }
    {
        for oid in oids {
            self.mark(*oid)?;
        }
        Ok(())
    }

    /// Notes a record that can't be read.
    fn note(&mut self, oid: Oid, serial: Tid)
        ensures { self.new ≡ with_note self.old (oid, serial) }
    {
        self.unreadable = match self.unreadable {
            Some(least) => Some(lesser(least, (oid, serial))),
            None => Some((oid, serial)),
        };
    }

    /// Reads a record: marks the objects that it names, or notes that it can't be read. The one error is
    /// want of memory.
    fn read_record<F: Refs>(
        &mut self,
        alloc: Global,
        refs: &F,
        oid: Oid,
        serial: Tid,
        bytes: &[u8],
    ) -> Result<(), AllocError>
        ensures ok { OnOk result (self.new ≡ with_record (F.named refs.now bytes.now) self.old oid serial) }
        ensures err { OnErr result (IsPartlyRead (F.named refs.now bytes.now) self.old self.new) }
    {
        match refs.references(alloc, bytes) {
            Ok(oids) => self.mark_each(oids.as_slice()),
            Err(RefsError::Unreadable) => {
                self.note(oid, serial);
                Ok(())
            }
            Err(RefsError::Memory) => Err(AllocError),
        }
    }

    /// Reads a change: marks its object, and reads its record. The one error is want of memory.
    fn read_change<F: Refs>(
        &mut self,
        alloc: Global,
        refs: &F,
        tid: Tid,
        change: &Change,
    ) -> Result<(), AllocError>
        ensures only { OnlyMarks self.old self.new }
        ensures sound { (list : List Transaction) → MayReadChange (F.named refs.now) self.old.tid list tid change.now
            → IsSound (F.named refs.now) list self.old self.new }
        ensures read { OnOk result (IsChangeRead (F.named refs.now) self.new tid change.now) }
    {
        self.mark(change.oid)?;
        match &change.content {
            Content::Held(bytes) => {
                self.read_record(alloc, refs, change.oid, tid, bytes.as_slice())
            }
            Content::Absent => Ok(()),
        }
    }

    /// Reads the changes of the transaction with this tid, one at a time, so that it may be larger
    /// than memory.
    fn read_transaction<St: Store, F: Refs>(
        &mut self,
        alloc: Global,
        store: &mut St,
        refs: &F,
        tid: Tid,
    ) -> Result<(), StoreError>
        requires whole { (St.state store.old).broken ≡ false }
        ensures only { OnlyMarks self.old self.new }
        ensures sound { St.told → (list : List Transaction) (x : Transaction)
            → transaction_at tid (St.state store.old).list ≡ Some x
            → MayReadTransaction (F.named refs.now) self.old.tid list x
            → IsSound (F.named refs.now) list self.old self.new }
        ensures read { St.told → OnOk result ((x : Transaction)
            → transaction_at tid (St.state store.old).list ≡ Some x
            → IsTransactionRead (F.named refs.now) self.new x) }
        ensures store { IsOnlyRead (St.state store.old) (St.state store.new) result }
    {
        let count = store.changes_to(tid);
        for number in 0..count {
            let Some(change) = store.change_at(alloc, tid, number)? else {
                return Ok(());
            };
            self.read_change(alloc, refs, tid, &change)?;
        }
        Ok(())
    }

    /// Reads the next transaction above the pack's tid, and answers whether there was one. The marks then
    /// stand for each list that rises, begins with what they stood for, and has that one next.
    pub(crate) fn mark_next<St: Store, F: Refs>(
        &mut self,
        alloc: Global,
        store: &mut St,
        refs: &F,
    ) -> Result<bool, StoreError>
        requires whole { (St.state store.old).broken ≡ false }
        ensures marks { St.told → (front : List Transaction) → RisesTo 0 (newest_tid front) front
            → first_after self.old.seen front ≡ first_after self.old.seen (St.state store.old).list
            → IsMarking (F.named refs.now) front self.old → IsMarking (F.named refs.now) front self.new }
        ensures next { St.told → IfOk result (IsNextSeen (St.state store.old).list self.old self.new) }
        ensures fresh { MarksFresh self.old self.new }
        ensures keeps { KeepsMarks self.old self.new }
        ensures counted { self.new.counted ≡ self.old.counted }
        ensures read { IsOnlyRead (St.state store.old) (St.state store.new) result }
    {
        let Some(tid) = store.first_tid_after(self.seen) else {
            return Ok(false);
        };
        self.read_transaction(alloc, store, refs, tid)?;
        self.seen = tid;
        Ok(true)
    }

    /// Reads every transaction above the pack's tid that wasn't read yet, or as many as mark more objects
    /// than the limit.
    fn mark_later<St: Store, F: Refs>(
        &mut self,
        alloc: Global,
        store: &mut St,
        refs: &F,
        limit: u64,
    ) -> Result<(), StoreError>
        requires whole { (St.state store.old).broken ≡ false }
        ensures marks { St.told → IsMarking (F.named refs.now) (St.state store.old).list self.old
            → IsMarking (F.named refs.now) (St.state store.old).list self.new }
        ensures all { St.told → OnOk result
            (IsPast limit self.new ⊎ (first_after self.new.seen (St.state store.old).list ≡ None)) }
        ensures keeps { KeepsMarks self.old self.new }
        ensures counted { self.new.counted ≡ self.old.counted }
        ensures read { IsOnlyRead (St.state store.old) (St.state store.new) result }
    {
        for _i in 0..u64::MAX {
            if self.is_past(limit) {
                return Ok(());
            }
            if !self.mark_next(alloc, store, refs)? {
                return Ok(());
            }
        }
        Ok(())
    }

    /// Reads what was found of the object that waits first, as its last revision up to the pack's tid. The
    /// one error is want of memory.
    fn read_found<F: Refs>(
        &mut self,
        alloc: Global,
        refs: &F,
        oid: Oid,
        found: &Found,
    ) -> Result<(), AllocError>
        ensures only { OnlyMarks self.old self.new }
        ensures sound { (list : List Transaction) → MayReadFound (F.named refs.now) self.old.tid list oid found.now
            → IsSound (F.named refs.now) list self.old self.new }
        ensures read { OnOk result (IsFoundRead (F.named refs.now) self.new oid found.now) }
    {
        match found {
            Found::Held {
                serial,
                bytes,
                end: _,
            } => { self.read_record(alloc, refs, oid, *serial, bytes.as_slice()) }
            Found::Absent { serial: _ } => Ok(()),
            Found::Nothing => Ok(()),
        }
    }

    /// Reads the last revision up to the pack's tid of the object that waits first, which then waits no
    /// more, and answers that object where it has one. The marks then stand for each list that they stood
    /// for and from which the store's has grown.
    fn follow_next<St: Store, F: Refs>(
        &mut self,
        alloc: Global,
        store: &mut St,
        refs: &F,
    ) -> Result<Option<Oid>, StoreError>
        requires whole { (St.state store.old).broken ≡ false }
        ensures marks { St.told → (front later : List Transaction)
            → HasGrown self.old.tid front later (St.state store.old).list
            → IsMarking (F.named refs.now) front self.old → IsMarking (F.named refs.now) front self.new }
        ensures follows { St.told → IfOk result (FollowsOne (St.state store.old).list self.old self.new) }
        ensures one { OnOk result (IsOneFollowed self.old self.new) }
        ensures seen { self.new.seen ≡ self.old.seen }
        ensures keeps { KeepsMarks self.old self.new }
        ensures counted { self.new.counted ≡ self.old.counted }
        ensures read { IsOnlyRead (St.state store.old) (St.state store.new) result }
    {
        let Some(oid) = self.first_waiting() else {
            return Ok(None);
        };
        let found = store.load_before(alloc, oid, front_behind(self.tid))?;
        self.read_found(alloc, refs, oid, &found)?;
        self.waiting.pop_front();
        Ok(revised_as(oid, &found))
    }

    /// Follows every object that waits, also those that are marked meanwhile, or as many as mark more
    /// objects than the limit. Answers the least of those that were followed and have a revision up to the
    /// pack's tid.
    pub(crate) fn follow_all<St: Store, F: Refs>(
        &mut self,
        alloc: Global,
        store: &mut St,
        refs: &F,
        limit: u64,
    ) -> Result<Option<Oid>, StoreError>
        requires whole { (St.state store.old).broken ≡ false }
        ensures marks { St.told → (front later : List Transaction)
            → HasGrown self.old.tid front later (St.state store.old).list
            → IsMarking (F.named refs.now) front self.old → IsMarking (F.named refs.now) front self.new }
        ensures least { St.told → (before : set.FinSet nat_cmp)
            → IsLeastFollowed (St.state store.old).list before self.old None
            → IfOk result (IsLeastFollowed (St.state store.old).list before self.new) }
        ensures all { OnOk result (IsPast limit self.new ⊎ (self.new.waiting ≡ [])) }
        ensures seen { self.new.seen ≡ self.old.seen }
        ensures keeps { KeepsMarks self.old self.new }
        ensures counted { self.new.counted ≡ self.old.counted }
        ensures read { IsOnlyRead (St.state store.old) (St.state store.new) result }
    {
        let mut least = None;
        'follow: while self.waits() {
            if self.is_past(limit) {
                return Ok(least);
            }
            let followed = self.follow_next(alloc, store, refs)?;
            least = lesser_some(least, followed);
        }
        Ok(least)
    }

    /// Follows so many of the objects that wait, or all of them where there are fewer.
    pub(crate) fn follow_some<St: Store, F: Refs>(
        &mut self,
        alloc: Global,
        store: &mut St,
        refs: &F,
        number: u64,
    ) -> Result<(), StoreError>
        requires whole { (St.state store.old).broken ≡ false }
        ensures marks { St.told → IsMarking (F.named refs.now) (St.state store.old).list self.old
            → IsMarking (F.named refs.now) (St.state store.old).list self.new }
        ensures keeps { KeepsMarks self.old self.new }
        ensures counted { self.new.counted ≡ self.old.counted }
        ensures read { IsOnlyRead (St.state store.old) (St.state store.new) result }
    {
        for _i in 0..number {
            self.follow_next(alloc, store, refs)?;
        }
        Ok(())
    }

    /// Follows so many of the objects that wait, or all of them where there are fewer, and then marks all
    /// that is reached, or more objects than the limit, and answers how many are marked. Records that can't
    /// be read are noted.
    pub(crate) fn mark_ahead<St: Store, F: Refs>(
        &mut self,
        alloc: Global,
        store: &mut St,
        refs: &F,
        number: u64,
        limit: u64,
    ) -> Result<u64, StoreError>
        requires whole { (St.state store.old).broken ≡ false }
        ensures marks { St.told → IsMarking (F.named refs.now) (St.state store.old).list self.old
            → IsMarking (F.named refs.now) (St.state store.old).list self.new }
        ensures all { St.told → OnOk result
            ((limit < set.len self.new.set) ⊎ IsComplete (St.state store.old).list self.new) }
        ensures count { IfOk result (λ count. count ≡ set.len self.new.set) }
        ensures bound { IfOk result (λ count. count < 2 ^ 63) }
        ensures keeps { KeepsMarks self.old self.new }
        ensures counted { self.new.counted ≡ self.old.counted }
        ensures read { IsOnlyRead (St.state store.old) (St.state store.new) result }
    {
        self.follow_some(alloc, store, refs, number)?;
        self.mark(Oid(0))?;
        self.mark_later(alloc, store, refs, limit)?;
        self.follow_all(alloc, store, refs, limit)?;
        Ok(self.count())
    }
}

/// The object, where something was found of it.
fn revised_as(oid: Oid, found: &Found) -> Option<Oid>
    ensures { result ≡ revised_as oid found.now }
{
    match found {
        Found::Held {
            serial: _,
            bytes: _,
            end: _,
        } => Some(oid),
        Found::Absent { serial: _ } => Some(oid),
        Found::Nothing => None,
    }
}

/// The lesser of two objects, where there are two.
fn lesser_some(one: Option<Oid>, other: Option<Oid>) -> Option<Oid>
    ensures { result ≡ lesser_some one other }
{
    match (one, other) {
        (Some(first), Some(second)) => Some(if second < first { second } else { first }),
        (Some(first), None) => Some(first),
        (None, second) => second,
    }
}

/// The front that all revisions up to a tid are below: the number after it, or the greatest one, which no
/// transaction has.
fn front_behind(tid: Tid) -> Tid
    ensures { result ≡ min (tid + 1) (2 ^ 64 - 1) }
{
    Tid(tid.0.saturating_add(1))
}

/// The lesser of two records, by object and then by serial.
fn lesser(one: (Oid, Tid), other: (Oid, Tid)) -> (Oid, Tid)
    ensures { result ≡ (if is_at_most one other then one else other) }
{
    if one.0 < other.0 || (one.0 == other.0 && one.1 <= other.1) {
        one
    } else {
        other
    }
}
