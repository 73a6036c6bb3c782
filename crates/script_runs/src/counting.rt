//! What a list comes to: its transactions, and the objects that it holds.

ghost use Rattle.std.specs.Prelude.{◌≡◌, ℕ, List, Some, false, length, IfOk, OnOk, ◌++◌};
ghost use Rattle.std.specs.FinSet as set;
ghost use Rattle.zb_model.specs.declared.data.Transaction.{Transaction};
ghost use Rattle.zb_model.specs.Queries.{found_below, oids_of, transaction_at};
ghost use Rattle.zb_model.specs.Stores.{IsOnlyRead};
ghost use Rattle.zodb_core.specs.Machine.{front_of};
ghost use Rattle.script_runs.specs.Counted.{held_among, with_object};
ghost use Rattle.script_runs.specs.Summary.{held_objects, is_held};

use std::alloc::Global;
use zb_ids::{Oid, Tid};
use zb_model::{Found, OidSet, Store, StoreError};

/// What a list comes to.
#[derive(Clone, Copy, Debug, PartialEq, Eq)]
pub(crate) struct Totals {
    /// How many transactions it has.
    pub transactions: u64,
    /// How many objects it holds.
    pub objects: u64,
}

/// Whether an object is held below a front.
fn is_held_below<St: Store>(
    alloc: Global,
    store: &mut St,
    oid: Oid,
    front: Tid,
) -> Result<bool, StoreError>
    requires whole { (St.state store.old).broken ≡ false }
    ensures held { St.told → IfOk result (λ held. held ≡ is_held (found_below oid front (St.state store.old).list)) }
    ensures read { IsOnlyRead (St.state store.old) (St.state store.new) result }
{
    match store.load_before(alloc, oid, front)? {
        Found::Held { .. } => Ok(true),
        Found::Absent { .. } => Ok(false),
        Found::Nothing => Ok(false),
    }
}

/// Puts an object into a set where it is held below the list's front.
fn find_object<St: Store>(
    alloc: Global,
    store: &mut St,
    oid: Oid,
    front: Tid,
    found: &mut OidSet,
) -> Result<(), StoreError>
    requires whole { (St.state store.old).broken ≡ false }
    requires front { St.told → front ≡ front_of (St.state store.old).list }
    ensures found { St.told → OnOk result (found.new ≡ with_object (St.state store.old).list found.old oid) }
    ensures read { IsOnlyRead (St.state store.old) (St.state store.new) result }
{
    if is_held_below(alloc, store, oid, front)? {
        found.insert(oid)?;
    }
    Ok(())
}

/// Of the objects that the transaction with this tid changes, puts those into a set that are held
/// below the list's front. Its changes are read one at a time, so that it may be larger than
/// memory.
fn find_objects<St: Store>(
    alloc: Global,
    store: &mut St,
    tid: Tid,
    front: Tid,
    found: &mut OidSet,
) -> Result<(), StoreError>
    requires whole { (St.state store.old).broken ≡ false }
    requires front { St.told → front ≡ front_of (St.state store.old).list }
    ensures found { St.told → OnOk result ((x : Transaction) (before : List ℕ) → transaction_at tid (St.state store.old).list ≡ Some x
        → found.old ≡ held_among (St.state store.old).list before → found.new ≡ held_among (St.state store.old).list (before ++ oids_of x)) }
    ensures read { IsOnlyRead (St.state store.old) (St.state store.new) result }
{
    let count = store.changes_to(tid);
    for number in 0..count {
        let Some(change) = store.change_at(alloc, tid, number)? else {
            return Ok(());
        };
        find_object(alloc, store, change.oid, front, found)?;
    }
    Ok(())
}

/// Counts what the list of a store comes to. It only reads the store.
pub(crate) fn count_list<St: Store>(alloc: Global, store: &mut St) -> Result<Totals, StoreError>
    requires whole { (St.state store.old).broken ≡ false }
    ensures transactions { St.told → IfOk result (λ totals. totals.transactions ≡ length (St.state store.old).list) }
    ensures objects { St.told → IfOk result (λ totals. totals.objects ≡ set.len (held_objects (St.state store.old).list)) }
    ensures read { IsOnlyRead (St.state store.old) (St.state store.new) result }
{
    let front = Tid(store.newest().0 + 1);
    let mut found = OidSet::new(alloc);
    let mut seen = Tid(0);
    for count in 0..u64::MAX {
        let Some(tid) = store.first_tid_after(seen) else {
            return Ok(Totals {
                transactions: count,
                objects: found.len() as u64,
            });
        };
        find_objects(alloc, store, tid, front, &mut found)?;
        seen = tid;
    }
    Err(StoreError::Memory)
}
