//! A cache of objects.

ghost use Rattle.std.specs.Prelude.{◌≡◌, ◌≤◌, [], IfOk, OnOk, OnErr, length, max, nat_eq};
ghost use Rattle.std.specs.List.{IsDistinct};
ghost use Rattle.std.specs.Map.{keys_of};
ghost use Rattle.object_cache.specs.Cached.{found_at, CachesSame, CachesAlso, CachesAllBut};

use lru::LruCache;
use std::alloc::{AllocError, Global};
use std::marker::Model;
use std::num::NonZeroUsize;
use zb_ids::{Oid, Text8, Tid};

/// A revision of an object.
#[derive(Debug, Drop)]
pub(crate) struct CachedRevision {
    /// Its serial.
    pub(crate) serial: Tid,
    /// Its bytes.
    pub(crate) bytes: Text8,
}

/// Revisions of objects, at most one of each object and no more than its capacity. Where a revision is
/// to be cached and there is no room, the one that was used least recently makes place for it; which one
/// that is, no contract says. Contracts see what is cached of each object, in no order that they speak
/// of, and the capacity.
#[derive(Drop)]
pub struct ObjectCache {
    entries: LruCache<Oid, CachedRevision>,
}

impl Model for ObjectCache {
    ghost use Rattle.object_cache.specs.Cached.{CachedObjects};

    ghost Value = { CachedObjects };

    ghost view = { λ a. record { objects = a.entries.entries; capacity = a.entries.cap } };
}

impl ObjectCache {
    /// An empty cache for so many objects, or for one where `capacity` is 0. The one error is want of
    /// memory.
    pub fn with_capacity(alloc: Global, capacity: usize) -> Result<ObjectCache, AllocError>
        ensures empty { IfOk result (λ cache. cache.objects ≡ []) }
        ensures capacity { IfOk result (λ cache. cache.capacity ≡ max capacity 1) }
    {
        let capacity = NonZeroUsize::new(capacity).unwrap_or(NonZeroUsize::MIN);
        Ok(ObjectCache {
            entries: LruCache::new(alloc, capacity)?,
        })
    }

    /// The serial and the bytes of the object's cached revision, if it has one with a serial below the
    /// front. Of each object the same stays cached. The one error is want of memory, and then the cache is
    /// as before.
    pub fn find(&mut self, oid: Oid, front: Tid) -> Result<Option<(Tid, Text8)>, AllocError>
        ensures found { IfOk result (λ found. found ≡ found_at self.old.objects oid front) }
        ensures same { CachesSame self.old.objects self.new.objects }
        ensures capacity { self.new.capacity ≡ self.old.capacity }
        ensures err { OnErr result (self.new ≡ self.old) }
    {
        let found = copy_below(&self.entries, oid, front)?;
        self.entries.promote(&oid);
        Ok(found)
    }

    /// Caches a revision of an object, in the place of an earlier one of the same object. Of each other
    /// object the same stays cached, but where there was no room what is cached of it may be dropped. The
    /// one error is want of memory, and then the cache is as before.
    pub fn keep(&mut self, oid: Oid, serial: Tid, bytes: Text8) -> Result<(), AllocError>
        ensures ok { OnOk result
            (CachesAlso self.old oid (record { serial = serial; bytes = bytes }) self.new) }
        ensures capacity { self.new.capacity ≡ self.old.capacity }
        ensures err { OnErr result (self.new ≡ self.old) }
    {
        match self.entries.put(oid, CachedRevision { serial, bytes }) {
            Ok(_) => Ok(()),
            Err(_) => Err(AllocError),
        }
    }

    /// Drops what is cached of the object, if anything is.
    pub fn drop_one(&mut self, oid: Oid)
        ensures gone { CachesAllBut self.old.objects oid self.new.objects }
        ensures capacity { self.new.capacity ≡ self.old.capacity }
    {
        are_distinct(&self.entries);
        self.entries.pop(&oid);
    }

    /// Drops all revisions.
    pub fn clear(&mut self)
        ensures empty { self.new.objects ≡ [] }
        ensures capacity { self.new.capacity ≡ self.old.capacity }
    {
        self.entries.clear();
    }

    /// How many objects have a cached revision.
    pub fn count(&self) -> usize
        ensures count { result ≡ length self.now.objects }
        ensures fits { result ≤ self.now.capacity }
    {
        self.entries.len()
    }
}

/// The serial and the bytes of the object's cached revision, if its serial is below the front.
fn copy_below(
    entries: &LruCache<Oid, CachedRevision>,
    oid: Oid,
    front: Tid,
) -> Result<Option<(Tid, Text8)>, AllocError>
    ensures { IfOk result (λ found. found ≡ found_at entries.now.entries oid front) }
{
    match entries.peek(&oid) {
        Some(cached) if cached.serial < front => Ok(Some((cached.serial, cached.bytes.clone()?))),
        _ => Ok(None),
    }
}

/// No object stands twice.
fn are_distinct(entries: &LruCache<Oid, CachedRevision>)
    ensures { IsDistinct nat_eq (keys_of entries.now.entries) }
{
    entries.len();
}
