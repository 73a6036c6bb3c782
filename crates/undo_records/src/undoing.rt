//! Transactions are undone.

ghost use Rattle.std.specs.Prelude.{◌≡◌, false, All, IfOk};
ghost use Rattle.zb_model.specs.Queries.{transaction_at};
ghost use Rattle.zb_model.specs.Voting.{IsFilled, NamesRevision};
ghost use Rattle.undo_records.specs.Outcomes.{IsUndone, AreWellFormedChanges, ReadsToUndo};
ghost use Rattle.undo_records.specs.Restoring.{IsRestored, NamesNewest};
ghost use Rattle.undo_records.specs.Undone.{is_untouched, merged_content, undone_changes, undone_content, undone_of, undone_transaction};

use crate::contents::{are_same, content_of, load_now, take_over};
use crate::refusal::UndoRefusal;
use crate::written::Written;
use std::alloc::{AllocError, Global};
use zb_ids::{ListOf, Oid, Text8, Tid};
use zb_model::{Change, Content, NewChange, NewContent, ResolveError, Resolver, Store};

/// What merging three records gives, if their rule makes something of them. The one error is want of
/// memory.
fn merge<R: Resolver>(
    alloc: Global,
    resolver: &R,
    old: &Content,
    committed: &Content,
    stored: &Content,
) -> Result<Option<Text8>, AllocError>
    ensures { IfOk result
        (λ bytes. bytes ≡ merged_content (R.rules resolver.now) old.now committed.now stored.now) }
{
    let Content::Held(old) = old else {
        return Ok(None);
    };
    let Content::Held(committed) = committed else {
        return Ok(None);
    };
    let Content::Held(stored) = stored else {
        return Ok(None);
    };
    if !resolver.has_rule(alloc, stored.as_slice())? {
        return Ok(None);
    }
    match resolver.resolve(
        alloc,
        old.as_slice(),
        committed.as_slice(),
        stored.as_slice(),
    ) {
        Ok(bytes) => Ok(Some(bytes)),
        Err(ResolveError::Refused(_)) => Ok(None),
        Err(ResolveError::Memory) => Err(AllocError),
    }
}

/// Whether the object's last revision is this transaction's, and nothing is written of it.
fn is_last<St: Store>(store: &St, tid: Tid, written: &Written, oid: Oid) -> bool
    requires whole { (St.state store.now).broken ≡ false }
    ensures { St.told → result ≡ is_untouched (St.state store.now).list tid written.now oid }
{
    store.serial_of(oid) == tid && written.get(oid).is_none()
}

/// What goes in for a change of a transaction.
fn undo_change<St: Store, R: Resolver>(
    alloc: Global,
    store: &mut St,
    resolver: &R,
    tid: Tid,
    written: &Written,
    change: &Change,
) -> Result<NewContent, UndoRefusal>
    requires whole { (St.state store.old).broken ≡ false }
    ensures undone { St.told → IsUndone
        (undone_content (R.rules resolver.now) (St.state store.old).list tid written.now change.now) result }
    ensures filled { IfOk result IsFilled }
    ensures read { ReadsToUndo (St.state store.old) (St.state store.new) result }
{
    let before = store.load_before(alloc, change.oid, tid)?;
    if is_last(store, tid, written, change.oid) {
        return Ok(take_over(&before));
    }
    let now = load_now(alloc, store, written, change.oid)?;
    if are_same(&now, &change.content) {
        return Ok(take_over(&before));
    }
    let before = content_of(before);
    match merge(alloc, resolver, &change.content, &now, &before)? {
        Some(bytes) => Ok(NewContent::Bytes(bytes)),
        None => Err(UndoRefusal::UndoConflict {
            oid: change.oid,
            later: store.serial_of(change.oid),
        }),
    }
}

/// Takes the changes of a transaction back, one after another.
fn undo_changes<St: Store, R: Resolver>(
    alloc: Global,
    store: &mut St,
    resolver: &R,
    tid: Tid,
    written: Written,
    changes: &[Change],
) -> Result<Written, UndoRefusal>
    requires whole { (St.state store.old).broken ≡ false }
    ensures undone { St.told → IsUndone
        (undone_changes (R.rules resolver.now) (St.state store.old).list tid written changes.now) result }
    ensures read { ReadsToUndo (St.state store.old) (St.state store.new) result }
{
    let mut written = written;
    for change in changes {
        let content = undo_change(alloc, store, resolver, tid, &written, change)?;
        written.put(change.oid, content)?;
    }
    Ok(written)
}

/// Takes a transaction back.
fn undo_transaction<St: Store, R: Resolver>(
    alloc: Global,
    store: &mut St,
    resolver: &R,
    tid: Tid,
    written: Written,
) -> Result<Written, UndoRefusal>
    requires whole { (St.state store.old).broken ≡ false }
    ensures undone { St.told → IsUndone (undone_transaction (R.rules resolver.now) (St.state store.old).list tid
        written (transaction_at tid (St.state store.old).list)) result }
    ensures read { ReadsToUndo (St.state store.old) (St.state store.new) result }
{
    let Some(transaction) = store.transaction(alloc, tid)? else {
        return Err(UndoRefusal::UndoUnknown { tid });
    };
    if transaction.packed {
        return Err(UndoRefusal::UndoPacked { tid });
    }
    undo_changes(
        alloc,
        store,
        resolver,
        tid,
        written,
        transaction.changes.as_slice(),
    )
}

/// Takes transactions back in turn, each where what the ones ahead of it wrote stands.
#[tactic(auto, unfolding(crate::specs::Undone::undone_of))]
fn undo_in_turn<St: Store, R: Resolver>(
    alloc: Global,
    store: &mut St,
    resolver: &R,
    tids: &[Tid],
) -> Result<ListOf<NewChange>, UndoRefusal>
    requires whole { (St.state store.old).broken ≡ false }
    ensures undone { St.told → IsUndone (undone_of (R.rules resolver.now) (St.state store.old).list tids.now) result }
    ensures votable { IfOk result AreWellFormedChanges }
    ensures read { ReadsToUndo (St.state store.old) (St.state store.new) result }
{
    let mut written = Written::new(alloc);
    for tid in tids {
        written = undo_transaction(alloc, store, resolver, *tid, written)?;
    }
    Ok(written.into_changes()?)
}

/// What undoing transactions will write over the list of a store, or why it is refused. They are taken
/// in the order of `tids`, each seeing what the ones ahead of it wrote: so the newest stands first.
///
/// For each object of a transaction that is what the object was before the transaction, where it still
/// is what the transaction made it. That is named by its serial, and its bytes aren't copied. Where the
/// object was changed since, the resolver's rules merge what it was before with what it is now. An
/// object that was not there before is taken away. What is written may be voted over the list.
///
/// It is refused for a tid that no transaction has, for a transaction that a pack has gone over, and for
/// an object whose changes can't be merged. It only reads the store.
pub fn undo<St: Store, R: Resolver>(
    alloc: Global,
    store: &mut St,
    resolver: &R,
    tids: &[Tid],
) -> Result<ListOf<NewChange>, UndoRefusal>
    requires whole { (St.state store.old).broken ≡ false }
    ensures undone { St.told → IsUndone (undone_of (R.rules resolver.now) (St.state store.old).list tids.now) result }
    ensures restores { St.told → NamesNewest (St.state store.old).list tids.now
        → IsRestored (St.state store.old).list result }
    ensures votable { IfOk result AreWellFormedChanges }
    ensures sound { St.told → IfOk result
        (All (λ c. NamesRevision (St.state store.old).list c.oid c.content)) }
    ensures read { ReadsToUndo (St.state store.old) (St.state store.new) result }
{
    undo_in_turn(alloc, store, resolver, tids)
}
