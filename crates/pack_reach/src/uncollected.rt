//! The marks of a pack that keeps every object.

ghost use Rattle.std.specs.Prelude.{◌≡◌, ◌<◌, ◌^◌, ℕ, List, Option, Some, None, false, IfOk, IfErr, OnOk};
ghost use Rattle.std.specs.FinSet as set;
ghost use Rattle.zb_model.specs.declared.data.Transaction.{Transaction};
ghost use Rattle.zb_model.specs.Queries.{first_after, transaction_at};
ghost use Rattle.zb_model.specs.Stores.{IsOnlyRead};
ghost use Rattle.pack_reach.specs.Outcomes.{IsOfStore, ReadsToMark};
ghost use Rattle.pack_reach.specs.Packed.{kept};
ghost use Rattle.pack_reach.specs.Uncollected.{AreTaken, with_changes};

use crate::marker::Marker;
use crate::refusal::PackRefusal;
use std::alloc::Global;
use std::collections::VecDeque;
use zb_ids::Tid;
use zb_model::{OidSet, Store, StoreError};

impl Marker {
    /// The marks of a pack up to a tid that doesn't collect: all objects of the list of a store are marked,
    /// and no record is followed. It only reads the store.
    pub fn without_collection<St: Store>(
        alloc: Global,
        tid: Tid,
        store: &mut St,
    ) -> Result<Marker, PackRefusal>
        requires { (St.state store.old).broken ≡ false }
        ensures all { St.told → IfOk result (λ made. (named : List ℕ → Option (List ℕ)) →
            made.set ≡ kept false named tid (St.state store.old).list) }
        ensures tid { IfOk result (λ made. made.tid ≡ tid) }
        ensures counted { IfOk result (λ made. made.counted ≡ set.len made.set) }
        ensures bound { IfOk result (λ made. made.counted < 2 ^ 63) }
        ensures only { IfErr result IsOfStore }
        ensures read { ReadsToMark (St.state store.old) (St.state store.new) result }
    {
        let mut marks = OidSet::new(alloc);
        let seen = take_list(alloc, store, &mut marks)?;
        let counted = marks.len() as u64;
        Ok(Marker {
            tid,
            seen,
            marks,
            waiting: VecDeque::with_capacity(alloc, 0)?,
            unreadable: None,
            counted,
        })
    }
}

/// Takes the objects that the transaction with this tid changes, one at a time, so that it may be
/// larger than memory.
fn take_objects<St: Store>(
    alloc: Global,
    store: &mut St,
    marks: &mut OidSet,
    tid: Tid,
) -> Result<(), StoreError>
    requires whole { (St.state store.old).broken ≡ false }
    ensures taken { St.told → OnOk result ((x : Transaction)
        → transaction_at tid (St.state store.old).list ≡ Some x
        → marks.new ≡ with_changes marks.old x.changes) }
    ensures read { IsOnlyRead (St.state store.old) (St.state store.new) result }
{
    let count = store.changes_to(tid);
    for number in 0..count {
        let Some(change) = store.change_at(alloc, tid, number)? else {
            return Ok(());
        };
        marks.insert(change.oid)?;
    }
    Ok(())
}

/// Takes the objects of a list into an empty set, and answers the tid of its last transaction, or 0.
fn take_list<St: Store>(
    alloc: Global,
    store: &mut St,
    marks: &mut OidSet,
) -> Result<Tid, StoreError>
    requires whole { (St.state store.old).broken ≡ false }
    requires none { marks.old ≡ set.empty }
    ensures taken { St.told → IfOk result (λ seen. AreTaken (St.state store.old).list seen marks.new) }
    ensures all { St.told → IfOk result (λ seen. first_after seen (St.state store.old).list ≡ None) }
    ensures read { IsOnlyRead (St.state store.old) (St.state store.new) result }
{
    let mut seen = Tid(0);
    for _i in 0..u64::MAX {
        let Some(tid) = store.first_tid_after(seen) else {
            return Ok(seen);
        };
        take_objects(alloc, store, marks, tid)?;
        seen = tid;
    }
    Ok(seen)
}
