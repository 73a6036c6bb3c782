//! The cache of a remote client.

ghost use Rattle.std.specs.Prelude.{◌≡◌, ◌≤◌, [], IfOk, OnOk, OnErr, length, max, nat_eq};
ghost use Rattle.std.specs.List.{IsDistinct};
ghost use Rattle.std.specs.Map.{keys_of};
ghost use Rattle.std.specs.Option.{option_copied};
ghost use Rattle.zeo_cache.specs.Intervals.{found_at, found_in, is_up_to, kept_end, closed_at, HoldsSame, HoldsAlso, HoldsClosed, HoldsAllBut};

use crate::interval::Interval;
use lru::LruCache;
use std::alloc::{AllocError, Global};
use std::marker::Model;
use std::num::NonZeroUsize;
use zb_ids::{Oid, Text8, Tid};

/// Entries of objects, at most one of each object and no more than the capacity. Where one is to be kept
/// and there is no room, the one that was used least recently makes place for it; which one that is, no
/// contract says. Contracts see the entry of each object, in no order that they speak of, and the
/// capacity.
#[derive(Drop)]
pub struct ZeoCache {
    entries: LruCache<Oid, Interval>,
}

impl Model for ZeoCache {
    ghost use Rattle.zeo_cache.specs.Intervals.{CachedIntervals};

    ghost Value = { CachedIntervals };

    ghost view = { λ a. record { entries = a.entries.entries; capacity = a.entries.cap } };
}

impl ZeoCache {
    /// An empty cache for so many objects, or for one where `capacity` is 0. The one error is want of
    /// memory.
    pub fn with_capacity(alloc: Global, capacity: usize) -> Result<ZeoCache, AllocError>
        ensures empty { IfOk result (λ cache. cache.entries ≡ []) }
        ensures capacity { IfOk result (λ cache. cache.capacity ≡ max capacity 1) }
    {
        let capacity = NonZeroUsize::new(capacity).unwrap_or(NonZeroUsize::MIN);
        Ok(ZeoCache {
            entries: LruCache::new(alloc, capacity)?,
        })
    }

    /// The serial and the bytes of the object's entry, if it has one whose serial is below the front and
    /// whose end, where it has one, isn't. Of each object the same entry stays. The one error is want of
    /// memory, and then the cache is as before.
    pub fn find(&mut self, oid: Oid, front: Tid) -> Result<Option<(Tid, Text8)>, AllocError>
        ensures found { IfOk result (λ found. found ≡ found_at self.old.entries oid front) }
        ensures same { HoldsSame self.old.entries self.new.entries }
        ensures capacity { self.new.capacity ≡ self.old.capacity }
        ensures err { OnErr result (self.new ≡ self.old) }
    {
        let found = copy_found(self.entries.peek(&oid), front)?;
        self.entries.promote(&oid);
        Ok(found)
    }

    /// Keeps what a server answered about an object, in the place of an earlier entry of it: a revision,
    /// the serial of the object's next one, if there is one, and the front up to which the answer speaks.
    /// Without a next one the entry has no end, except that it ends at `upto` where this is below the
    /// greatest front that is known: what happened from there on, the answer doesn't say. Of each other
    /// object the same entry stays, but where there was no room it may be dropped. The one error is want
    /// of memory, and then the cache is as before.
    pub fn keep(
        &mut self,
        oid: Oid,
        serial: Tid,
        bytes: Text8,
        end: Option<Tid>,
        upto: Tid,
        known: Tid,
    ) -> Result<(), AllocError>
        ensures ok { OnOk result
            (HoldsAlso self.old oid (record { serial = serial; bytes = bytes; end = kept_end end upto known }) self.new) }
        ensures capacity { self.new.capacity ≡ self.old.capacity }
        ensures err { OnErr result (self.new ≡ self.old) }
    {
        let end = end_of_kept(end, upto, known);
        match self.entries.put(oid, Interval { serial, bytes, end }) {
            Ok(_) => Ok(()),
            Err(_) => Err(AllocError),
        }
    }

    /// The object was changed by this transaction: its entry ends there, if it has one without an end and
    /// with a serial below it. All else stays.
    pub fn close(&mut self, oid: Oid, tid: Tid)
        ensures closed { HoldsClosed self.old.entries oid tid self.new.entries }
        ensures capacity { self.new.capacity ≡ self.old.capacity }
    {
        close_in(&mut self.entries, oid, tid);
    }

    /// Drops the object's entry, if it has one. All else stays.
    pub fn drop_one(&mut self, oid: Oid)
        ensures gone { HoldsAllBut self.old.entries oid self.new.entries }
        ensures capacity { self.new.capacity ≡ self.old.capacity }
    {
        are_distinct(&self.entries);
        self.entries.pop(&oid);
    }

    /// Drops all entries.
    pub fn clear(&mut self)
        ensures empty { self.new.entries ≡ [] }
        ensures capacity { self.new.capacity ≡ self.old.capacity }
    {
        self.entries.clear();
    }

    /// How many objects have an entry.
    pub fn count(&self) -> usize
        ensures count { result ≡ length self.now.entries }
        ensures fits { result ≤ self.now.capacity }
    {
        self.entries.len()
    }
}

/// Whether the front is at or before the end, where there is one.
fn is_up_to(front: Tid, end: Option<Tid>) -> bool
    ensures { result ≡ is_up_to front end }
{
    match end {
        None => true,
        Some(end) => front <= end,
    }
}

/// What an entry answers at a front.
fn copy_found(entry: Option<&Interval>, front: Tid) -> Result<Option<(Tid, Text8)>, AllocError>
    ensures { IfOk result (λ found. found ≡ found_in (option_copied entry.entry) front) }
{
    match entry {
        Some(kept) if kept.serial < front && is_up_to(front, kept.end) => {
            Ok(Some((kept.serial, kept.bytes.clone()?)))
        }
        _ => Ok(None),
    }
}

/// The end of an entry that is to be kept.
fn end_of_kept(end: Option<Tid>, upto: Tid, known: Tid) -> Option<Tid>
    ensures { result ≡ kept_end end upto known }
{
    match end {
        Some(end) => Some(end),
        None if upto < known => Some(upto),
        None => None,
    }
}

/// Ends the object's entry at a tid, where it has none yet and began before it.
fn close_in(entries: &mut LruCache<Oid, Interval>, oid: Oid, tid: Tid)
    ensures closed { HoldsClosed entries.old.entries oid tid entries.new.entries }
    ensures capacity { entries.new.cap ≡ entries.old.cap }
{
    if let Some(entry) = entries.peek_mut(&oid) {
        close(entry, tid);
    }
}

/// Ends an entry at a tid, where it has no end yet and began before it.
fn close(entry: &mut Interval, tid: Tid)
    ensures { entry.new ≡ closed_at tid entry.old }
{
    if entry.end.is_none() && entry.serial < tid {
        entry.end = Some(tid);
    }
}

/// No object stands twice.
fn are_distinct(entries: &LruCache<Oid, Interval>)
    ensures { IsDistinct nat_eq (keys_of entries.now.entries) }
{
    entries.len();
}
