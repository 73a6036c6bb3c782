//! Several stores at once: all of them, or none.

ghost use Rattle.std.specs.Prelude.{◌≡◌, ◌++◌, ◌∷◌, [], ◌<◌, All, IfOk, OnErr, is_some, length, nat_eq, true, vec_capacity};
ghost use Rattle.indexmap.specs.IndexMap.{get, insert_entry};
ghost use Rattle.zb_model.specs.Database.{IsRecord};
ghost use Rattle.commit_phases.specs.Pending.{excess_with, size_of_stores, stores_after, with_pending, AreStores, AreStoredUnlessTooLong, IsOkUnlessTooLong};
ghost use Rattle.commit_phases.specs.Kept.{put_back, restored, stores_of};

use crate::errors::PendingError;
use crate::pending::{Placed, Stored, put};
use indexmap::IndexMap;
use std::alloc::Global;
use zb_ids::{ListOf, Oid};
use zb_model::PendingStore;

/// An object whose store was put into the table, and its earlier store there.
#[derive(Drop)]
pub(crate) struct Replaced {
    pub(crate) oid: Oid,
    pub(crate) earlier: Option<Stored>,
}

/// Notes one more, for which there is room.
fn note(done: &mut Vec<Replaced>, replaced: Replaced)
    requires room { length done.old.items < vec_capacity done.old }
    ensures { done.new.items ≡ done.old.items ++ replaced ∷ [] }
{
    let _ = done.push(replaced);
}

/// Puts an object's store into a table, and notes what was there.
#[tactic(auto, using(crate::proofs::Restoring::noted))]
fn put_noting(
    stores: &mut IndexMap<Oid, Stored>,
    size: u64,
    store: PendingStore,
    done: &mut Vec<Replaced>,
) -> Result<u64, PendingError>
    requires stores { AreStores (stores_of stores.old.entries) }
    requires size { size ≡ size_of_stores (stores_of stores.old.entries) }
    requires filled { IsRecord store.content }
    ensures answer { IsOkUnlessTooLong (excess_with (stores_of stores.old.entries) store) result }
    ensures ok { IfOk result
        (λ _. stores_of stores.new.entries ≡ with_pending (stores_of stores.old.entries) store) }
    ensures size { IfOk result (λ size. size ≡ size_of_stores (stores_of stores.new.entries)) }
    ensures stores { AreStores (stores_of stores.new.entries) }
    ensures restored { restored stores.new.entries done.new.items ≡ restored stores.old.entries done.old.items }
{
    if done.reserve(1).is_err() {
        return Err(PendingError::Memory);
    }
    let oid = store.oid;
    let Placed { size, earlier } = put(stores, size, store)?;
    note(done, Replaced { oid, earlier });
    Ok(size)
}

/// Puts several stores into a table, one after another, and notes what was there.
fn put_each(
    stores: &mut IndexMap<Oid, Stored>,
    size: u64,
    list: ListOf<PendingStore>,
    done: &mut Vec<Replaced>,
) -> Result<u64, PendingError>
    requires stores { AreStores (stores_of stores.old.entries) }
    requires size { size ≡ size_of_stores (stores_of stores.old.entries) }
    requires filled { All (λ p. IsRecord p.content) list }
    ensures answer { AreStoredUnlessTooLong (stores_after (stores_of stores.old.entries) list)
        (stores_of stores.new.entries) result }
    ensures size { IfOk result (λ size. size ≡ size_of_stores (stores_of stores.new.entries)) }
    ensures stores { AreStores (stores_of stores.new.entries) }
    ensures restored { restored stores.new.entries done.new.items ≡ restored stores.old.entries done.old.items }
{
    let mut size = size;
    for store in list.into_vec() {
        size = put_noting(stores, size, store, done)?;
    }
    Ok(size)
}

/// Puts a store into a table in the place of the object's own, which takes no memory.
pub(crate) fn exchange(stores: &mut IndexMap<Oid, Stored>, oid: Oid, stored: Stored)
    requires there { is_some (get nat_eq stores.old oid) ≡ true }
    ensures { stores.new.entries ≡ insert_entry nat_eq stores.old.entries oid stored }
{
    let _ = stores.insert(oid, stored);
}

/// Takes a store out of a table again, so that what was there before is there.
#[tactic(auto, using(crate::proofs::Restoring::kept_again, crate::proofs::Restoring::not_there))]
fn take_back(stores: &mut IndexMap<Oid, Stored>, replaced: Replaced)
    ensures { stores.new.entries ≡ put_back stores.old.entries replaced }
{
    let Replaced { oid, earlier } = replaced;
    match earlier {
        None => {
            let count = stores.len();
            stores.truncate(count.saturating_sub(1));
        }
        Some(stored) => {
            if stores.contains_key(&oid) {
                exchange(stores, oid, stored);
            }
        }
    }
}

/// Takes the stores that were noted out of a table again, the last one first.
fn take_back_all(stores: &mut IndexMap<Oid, Stored>, done: Vec<Replaced>)
    ensures { stores.new.entries ≡ restored stores.old.entries done.items }
{
    let mut done = done;
    while let Some(replaced) = done.pop() {
        take_back(stores, replaced);
    }
}

/// Puts several stores, one after another, into a table whose stores have `size` bytes together, and
/// answers how many bytes they have then. With an error the table is as before.
pub(crate) fn put_all(
    alloc: Global,
    stores: &mut IndexMap<Oid, Stored>,
    size: u64,
    list: ListOf<PendingStore>,
) -> Result<u64, PendingError>
    requires stores { AreStores (stores_of stores.old.entries) }
    requires size { size ≡ size_of_stores (stores_of stores.old.entries) }
    requires filled { All (λ p. IsRecord p.content) list }
    ensures answer { AreStoredUnlessTooLong (stores_after (stores_of stores.old.entries) list)
        (stores_of stores.new.entries) result }
    ensures size { IfOk result (λ size. size ≡ size_of_stores (stores_of stores.new.entries)) }
    ensures stores { AreStores (stores_of stores.new.entries) }
    ensures err { OnErr result (stores.new.entries ≡ stores.old.entries) }
{
    let mut done: Vec<Replaced> = Vec::new(alloc);
    match put_each(stores, size, list, &mut done) {
        Ok(size) => Ok(size),
        Err(why) => {
            take_back_all(stores, done);
            Err(why)
        }
    }
}
