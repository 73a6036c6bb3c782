//! Changes that wait for a vote.

ghost use Rattle.std.specs.Prelude.{◌≡◌, ◌+◌, ◌++◌, ◌∷◌, [], ◌<◌, All, IfOk, OnOk, OnErr, length, nat_eq, take};
ghost use Rattle.indexmap.specs.IndexMap.{get, insert_entry, keys};
ghost use Rattle.std.specs.List.{IsDistinct};
ghost use Rattle.std.specs.Option.{option_map};
ghost use Rattle.zb_model.specs.declared.data.Content.TheVariants.{Held, Absent};
ghost use Rattle.zb_model.specs.Database.{IsRecord};
ghost use Rattle.commit_phases.specs.Pending.{excess_with, length_of_content, pending_of, size_of_stores, stores_after, with_pending, AreStores, AreStoredUnlessTooLong, IsOkUnlessTooLong};
ghost use Rattle.commit_phases.specs.Earlier.{with_contents};
ghost use Rattle.commit_phases.specs.Kept.{base_or, length_or_none, put_back, store_of, stores_of};

use crate::errors::PendingError;
use crate::going_back::{give_contents, keep_checks};
use crate::several::put_all;
use indexmap::IndexMap;
use std::alloc::{AllocError, Global};
use std::marker::Model;
use zb_ids::{ListOf, Oid, Text8, Tid};
use zb_model::{Content, PendingCheck, PendingStore};

/// How many bytes one object may have.
pub const OBJECT_LIMIT: u64 = 16_777_216;

/// How many bytes the stores of one transaction may have together.
pub const TRANSACTION_LIMIT: u64 = 67_108_864;

/// The base and the content of an object's store or delete.
#[derive(Debug, Drop)]
pub(crate) struct Stored {
    pub(crate) base: Tid,
    pub(crate) content: Content,
}

impl Clone for Stored {
    ghost use Rattle.std.specs.Prelude.{◌≡◌};

    ghost is_clone = { λ stored copy. copy ≡ stored };

    fn clone(&self) -> Result<Stored, AllocError> {
        Ok(Stored {
            base: self.base,
            content: self.content.clone()?,
        })
    }
}

/// Stores, deletes and checks that wait for a vote. Contracts see the stores and deletes together, in the
/// order in which their objects were first stored or deleted, and the checks in their order. No two
/// stores or deletes are of one object, no store is empty, and their bytes are within the limits of an
/// object and of a transaction.
#[derive(Drop)]
pub struct Pending {
    alloc: Global,
    stores: IndexMap<Oid, Stored>,
    checks: ListOf<PendingCheck>,
    /// How many bytes the stores have together.
    size: u64,
}

impl Model for Pending {
    ghost use Rattle.std.specs.Prelude.{◌≡◌};
    ghost use Rattle.commit_phases.specs.Pending.{AreStores, PendingChanges, size_of_stores};
    ghost use Rattle.commit_phases.specs.Kept.{stores_of};

    ghost Value = { PendingChanges };

    ghost view = { λ a. record { stores = stores_of a.stores.entries; checks = a.checks } };

    ghost invariant = { λ a. AreStores (stores_of a.stores.entries)
        × (a.size ≡ size_of_stores (stores_of a.stores.entries)) };
}

/// How much is pending.
#[derive(Clone, Copy, Debug)]
pub struct Extent {
    /// How many stores and deletes there are.
    pub stores: usize,
    /// How many checks there are.
    pub checks: usize,
    /// How many bytes the stores have together.
    pub size: u64,
}

/// Puts an object's store into the table, in the place of an earlier one, which is answered, or behind all.
fn keep(
    stores: &mut IndexMap<Oid, Stored>,
    oid: Oid,
    stored: Stored,
) -> Result<Option<Stored>, AllocError>
    ensures ok { OnOk result (stores.new.entries ≡ insert_entry nat_eq stores.old.entries oid stored) }
    ensures earlier { IfOk result (λ earlier. earlier ≡ get nat_eq stores.old oid) }
    ensures unique { IsDistinct nat_eq (keys stores.new) }
    ensures err { OnErr result (stores.new.entries ≡ stores.old.entries) }
{
    let earlier = stores.insert(oid, stored)?;
    Ok(earlier)
}

/// What a store that was put into the table leaves: how many bytes all have then, and the object's
/// earlier store.
#[derive(Drop)]
pub(crate) struct Placed {
    pub(crate) size: u64,
    pub(crate) earlier: Option<Stored>,
}

/// How many bytes a content has: none where the object isn't there.
fn length_of(content: &Content) -> u64
    ensures { result ≡ length_of_content content.now }
{
    match content {
        Content::Held(bytes) => bytes.len() as u64,
        Content::Absent => 0,
    }
}

/// Puts an object's store or delete into a table whose stores have `size` bytes together, in the place
/// of an earlier one or behind all, and answers how many bytes they have then, and the earlier one.
pub(crate) fn put(
    stores: &mut IndexMap<Oid, Stored>,
    size: u64,
    store: PendingStore,
) -> Result<Placed, PendingError>
    requires stores { AreStores (stores_of stores.old.entries) }
    requires size { size ≡ size_of_stores (stores_of stores.old.entries) }
    requires filled { IsRecord store.content }
    ensures answer { IsOkUnlessTooLong (excess_with (stores_of stores.old.entries) store) result }
    ensures ok { OnOk result
        (stores_of stores.new.entries ≡ with_pending (stores_of stores.old.entries) store) }
    ensures size { IfOk result (λ placed. placed.size ≡ size_of_stores (stores_of stores.new.entries)) }
    ensures stores { AreStores (stores_of stores.new.entries) }
    ensures undone { IfOk result (λ placed. put_back stores.new.entries
        (record { oid = store.oid; earlier = placed.earlier }) ≡ stores.old.entries) }
    ensures err { OnErr result (stores.new.entries ≡ stores.old.entries) }
{
    let PendingStore { oid, base, content } = store;
    let length = length_of(&content);
    if length > OBJECT_LIMIT {
        return Err(PendingError::TooLong { length });
    }
    let (base, earlier) = earlier_or(stores, oid, base);
    let size = size - earlier + length;
    if size > TRANSACTION_LIMIT {
        return Err(PendingError::TooLong { length: size });
    }
    let earlier = keep(stores, oid, Stored { base, content })?;
    Ok(Placed { size, earlier })
}

/// Puts an object's delete into a table whose stores have `size` bytes together, in the place of a store
/// or delete that it has or behind all, and answers how many bytes they have then. The one error is want
/// of memory.
fn put_delete(
    stores: &mut IndexMap<Oid, Stored>,
    size: u64,
    oid: Oid,
    base: Tid,
) -> Result<u64, AllocError>
    requires stores { AreStores (stores_of stores.old.entries) }
    requires size { size ≡ size_of_stores (stores_of stores.old.entries) }
    ensures ok { OnOk result (stores_of stores.new.entries
        ≡ with_pending (stores_of stores.old.entries) (record { oid = oid; base = base; content = Absent })) }
    ensures size { IfOk result (λ size. size ≡ size_of_stores (stores_of stores.new.entries)) }
    ensures stores { AreStores (stores_of stores.new.entries) }
    ensures err { OnErr result (stores.new.entries ≡ stores.old.entries) }
{
    let (base, earlier) = earlier_or(stores, oid, base);
    let content = Content::Absent;
    keep(stores, oid, Stored { base, content })?;
    Ok(size - earlier)
}

impl Pending {
    /// Nothing is pending. It takes no memory until something is stored.
    pub fn new(alloc: Global) -> Pending
        ensures stores { result.stores ≡ [] }
        ensures checks { result.checks ≡ [] }
    {
        Pending {
            alloc,
            stores: IndexMap::new(alloc),
            checks: ListOf::new(alloc),
            size: 0,
        }
    }

    /// Puts an object's bytes, made from its revision with the serial `base`, behind the other stores. A
    /// second store of an object, also of one that was deleted, has its own bytes and keeps the place and
    /// the base of the first. With an error the pending changes are as before.
    pub fn store(&mut self, oid: Oid, base: Tid, bytes: Text8) -> Result<(), PendingError>
        requires filled { 0 < length bytes }
        ensures answer { IsOkUnlessTooLong
            (excess_with self.old.stores (record { oid = oid; base = base; content = Held bytes })) result }
        ensures ok { OnOk result (self.new.stores
            ≡ with_pending self.old.stores (record { oid = oid; base = base; content = Held bytes })) }
        ensures err { OnErr result (self.new ≡ self.old) }
        ensures checks { self.new.checks ≡ self.old.checks }
    {
        let content = Content::Held(bytes);
        self.put(PendingStore { oid, base, content })
    }

    /// Puts a store or delete behind the others, as `store` and `delete` do. With an error the pending
    /// changes are as before.
    pub fn put(&mut self, store: PendingStore) -> Result<(), PendingError>
        requires filled { IsRecord store.content }
        ensures answer { IsOkUnlessTooLong (excess_with self.old.stores store) result }
        ensures ok { OnOk result (self.new.stores ≡ with_pending self.old.stores store) }
        ensures err { OnErr result (self.new ≡ self.old) }
        ensures checks { self.new.checks ≡ self.old.checks }
    {
        let placed = put(&mut self.stores, self.size, store)?;
        self.size = placed.size;
        Ok(())
    }

    /// Puts a delete of an object, made from its revision with the serial `base`, behind the stores. A
    /// delete of an object that has a store or delete already keeps the place and the base of that one. It
    /// has no bytes. The one error is want of memory, and then the pending changes are as before.
    pub fn delete(&mut self, oid: Oid, base: Tid) -> Result<(), AllocError>
        ensures ok { OnOk result (self.new.stores
            ≡ with_pending self.old.stores (record { oid = oid; base = base; content = Absent })) }
        ensures err { OnErr result (self.new ≡ self.old) }
        ensures checks { self.new.checks ≡ self.old.checks }
    {
        self.size = put_delete(&mut self.stores, self.size, oid, base)?;
        Ok(())
    }

    /// Puts several stores and deletes behind the others, one after another as `store` and `delete` do: all
    /// of them, or none. `TooLong` comes exactly where the bytes of one, or those of all that wait by then, pass
    /// a limit. With an error the pending changes are as before.
    pub fn store_all(&mut self, stores: ListOf<PendingStore>) -> Result<(), PendingError>
        requires filled { All (λ p. IsRecord p.content) stores }
        ensures answer { AreStoredUnlessTooLong (stores_after self.old.stores stores) self.new.stores result }
        ensures err { OnErr result (self.new ≡ self.old) }
        ensures checks { self.new.checks ≡ self.old.checks }
    {
        let size = put_all(self.alloc, &mut self.stores, self.size, stores)?;
        self.size = size;
        Ok(())
    }

    /// Puts a check behind the others: at the vote the object must have this serial, or none where it is
    /// 0. The one error is want of memory, and then the pending changes are as before.
    pub fn check(&mut self, oid: Oid, serial: Tid) -> Result<(), AllocError>
        ensures ok { OnOk result
            (self.new.checks ≡ self.old.checks ++ (record { oid = oid; serial = serial }) ∷ []) }
        ensures err { OnErr result (self.new ≡ self.old) }
        ensures stores { self.new.stores ≡ self.old.stores }
    {
        self.checks.push(PendingCheck { oid, serial })?;
        Ok(())
    }

    /// The same pending changes once more. The one error is want of memory.
    pub fn copy(&self) -> Result<Pending, AllocError>
        ensures { IfOk result (λ copy. copy ≡ self.now) }
    {
        Ok(Pending {
            alloc: self.alloc,
            stores: self.stores.clone()?,
            checks: self.checks.clone()?,
            size: self.size,
        })
    }

    /// How many stores and checks there are together.
    pub fn count(&self) -> u64
        ensures { result ≡ length self.now.stores + length self.now.checks }
    {
        let checks = self.checks.as_slice();
        self.stores.len() as u64 + checks.len() as u64
    }

    /// How much is pending, to go back to.
    pub fn extent(&self) -> Extent
        ensures stores { result.stores ≡ length self.now.stores }
        ensures checks { result.checks ≡ length self.now.checks }
        ensures size { result.size ≡ size_of_stores self.now.stores }
        ensures are { AreStores self.now.stores }
    {
        let checks = self.checks.as_slice();
        Extent {
            stores: self.stores.len(),
            checks: checks.len(),
            size: self.size,
        }
    }

    /// Goes back to what was pending earlier. Each of these objects that has a store or delete has its
    /// content here then; of several contents of an object the first counts. The stores and deletes, and the
    /// checks, that are behind the extent are dropped. It takes no memory.
    pub fn go_back(&mut self, contents: Vec<(Oid, Content)>, extent: Extent)
        requires stores { AreStores (take extent.stores (with_contents self.old.stores contents.items)) }
        requires size { extent.size
            ≡ size_of_stores (take extent.stores (with_contents self.old.stores contents.items)) }
        ensures stores { self.new.stores ≡ take extent.stores (with_contents self.old.stores contents.items) }
        ensures checks { self.new.checks ≡ take extent.checks self.old.checks }
    {
        give_contents(&mut self.stores, contents, extent.stores);
        keep_checks(self.alloc, &mut self.checks, extent.checks);
        self.size = extent.size;
    }

    /// The base of the object's store, if it has one.
    #[tactic(auto, using(crate::proofs::Storing::base_found))]
    pub fn base_of(&self, oid: Oid) -> Option<Tid>
        ensures { result ≡ option_map (λ p. p.base) (pending_of self.now.stores oid) }
    {
        stored_base(&self.stores, oid)
    }

    /// The object's store once more, if it has one. The one error is want of memory.
    #[tactic(auto, using(crate::proofs::Storing::store_found))]
    pub fn copy_of(&self, oid: Oid) -> Result<Option<PendingStore>, AllocError>
        ensures { IfOk result (λ store. store ≡ pending_of self.now.stores oid) }
    {
        let store = stored_copy(&self.stores, oid)?;
        Ok(store)
    }

    /// The stores and the checks, in their orders. The one error is want of memory.
    pub fn into_parts(self) -> Result<(ListOf<PendingStore>, ListOf<PendingCheck>), AllocError>
        ensures stores { IfOk result (λ parts. parts.0 ≡ self.stores) }
        ensures checks { IfOk result (λ parts. parts.1 ≡ self.checks) }
        ensures are { AreStores self.stores }
    {
        let Pending {
            alloc,
            stores,
            checks,
            size: _,
        } = self;
        let stores: Vec<PendingStore> = stores
            .into_iter()
            .map(|(oid, stored)| pending_store(oid, stored))
            .collect(alloc)?;
        Ok((ListOf::from_vec(stores), checks))
    }
}

/// The base that an object's store has, and how many bytes, or else this base and none.
fn earlier_or(stores: &IndexMap<Oid, Stored>, oid: Oid, base: Tid) -> (Tid, u64)
    ensures base { result.0 ≡ base_or (get nat_eq stores.now oid) base }
    ensures length { result.1 ≡ length_or_none (get nat_eq stores.now oid) }
{
    match stores.get(&oid) {
        Some(stored) => (stored.base, length_of(&stored.content)),
        None => (base, 0),
    }
}

/// The base that an object's store has.
pub(crate) fn stored_base(stores: &IndexMap<Oid, Stored>, oid: Oid) -> Option<Tid>
    ensures { result ≡ option_map (λ stored. stored.base) (get nat_eq stores.now oid) }
{
    match stores.get(&oid) {
        Some(stored) => Some(stored.base),
        None => None,
    }
}

/// An object's store once more.
fn stored_copy(stores: &IndexMap<Oid, Stored>, oid: Oid) -> Result<Option<PendingStore>, AllocError>
    ensures { IfOk result (λ store. store ≡ option_map (λ stored. store_of (oid, stored)) (get nat_eq stores.now oid)) }
{
    match stores.get(&oid) {
        Some(stored) => Ok(Some(pending_store(oid, stored.clone()?))),
        None => Ok(None),
    }
}

/// An entry of the table as a store.
fn pending_store(oid: Oid, stored: Stored) -> PendingStore
    ensures { result ≡ store_of (oid, stored) }
{
    let Stored { base, content } = stored;
    PendingStore { oid, base, content }
}
