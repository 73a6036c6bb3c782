//! Changes that are noted, so that they can be taken back.

ghost use Rattle.std.specs.Prelude.{◌≡◌, ◌++◌, ◌∷◌, [], ◌<◌, All, IfOk, OnErr, OnOk, length, true, vec_capacity};
ghost use Rattle.zb_model.specs.Database.{IsRecord};
ghost use Rattle.commit_phases.specs.Pending.{excess_with, stores_after, with_pending, AreStoredUnlessTooLong, IsOkUnlessTooLong};
ghost use Rattle.savepoints.specs.Log.{all_whole, contents_of, notes_of, IsNoted, Notes, NotesIf};

use crate::replaced::{Replaced, earlier_than};
use commit_phases::{Extent, Pending, PendingError};
use std::alloc::{AllocError, Global};
use zb_ids::{ListOf, Oid};
use zb_model::{Content, PendingStore};

/// What a store or delete replaces: what leads back to the object's content, and that content itself.
#[derive(Drop)]
struct Noted {
    replaced: Replaced,
    content: Content,
}

/// What a store or delete is going to replace, if its object has one.
fn replaced_by(
    alloc: Global,
    pending: &Pending,
    store: &PendingStore,
) -> Result<Option<Noted>, AllocError>
    ensures { IfOk result (λ found. IsNoted pending.now.stores store.now found) }
{
    match pending.copy_of(store.oid)? {
        None => Ok(None),
        Some(now) => {
            let PendingStore {
                oid,
                base: _,
                content,
            } = now;
            let earlier = earlier_than(alloc, &content, &store.content)?;
            let replaced = Replaced {
                oid: store.oid,
                earlier,
            };
            Ok(Some(Noted { replaced, content }))
        }
    }
}

/// Adds to the log and to the contents, in which there is room, what was noted.
fn note(log: &mut Vec<Replaced>, contents: &mut Vec<(Oid, Content)>, noted: Option<Noted>)
    requires log { length log.old.items < vec_capacity log.old }
    requires contents { length contents.old.items < vec_capacity contents.old }
    ensures log { log.new.items ≡ log.old.items ++ notes_of noted }
    ensures contents { contents.new.items ≡ contents.old.items ++ contents_of noted }
{
    match noted {
        None => {}
        Some(Noted { replaced, content }) => {
            let oid = replaced.oid;
            let _ = log.push(replaced);
            let _ = contents.push((oid, content));
        }
    }
}

/// Puts a store or delete behind the others, as `Pending::put` does, and notes what it replaces, in the log
/// and as a whole content.
#[tactic(auto, using(crate::proofs::Undoing::notes_noted, crate::proofs::Undoing::contents_noted, crate::proofs::Undoing::unnoted))]
fn put_noting(
    alloc: Global,
    pending: &mut Pending,
    log: &mut Vec<Replaced>,
    contents: &mut Vec<(Oid, Content)>,
    store: PendingStore,
) -> Result<(), PendingError>
    requires filled { IsRecord store.content }
    ensures answer { IsOkUnlessTooLong (excess_with pending.old.stores store) result }
    ensures ok { OnOk result (pending.new.stores ≡ with_pending pending.old.stores store) }
    ensures checks { pending.new.checks ≡ pending.old.checks }
    ensures notes { Notes pending.old.stores pending.new.stores log.old.items log.new.items }
    ensures contents { Notes pending.old.stores pending.new.stores
        (all_whole contents.old.items) (all_whole contents.new.items) }
    ensures err { OnErr result (pending.new ≡ pending.old) }
    ensures err_log { OnErr result (log.new.items ≡ log.old.items) }
{
    let noted = replaced_by(alloc, pending, &store)?;
    if log.reserve(1).is_err() || contents.reserve(1).is_err() {
        return Err(PendingError::Memory);
    }
    pending.put(store)?;
    note(log, contents, noted);
    Ok(())
}

/// Puts several stores and deletes behind the others, one after another, and notes what they replace. With an
/// error those before it are put and noted.
#[tactic(auto, using(crate::proofs::Undoing::notes_more, crate::proofs::Undoing::nothing_noted))]
fn put_each(
    alloc: Global,
    pending: &mut Pending,
    log: &mut Vec<Replaced>,
    contents: &mut Vec<(Oid, Content)>,
    stores: ListOf<PendingStore>,
) -> Result<(), PendingError>
    requires filled { All (λ p. IsRecord p.content) stores }
    ensures answer { AreStoredUnlessTooLong (stores_after pending.old.stores stores) pending.new.stores result }
    ensures checks { pending.new.checks ≡ pending.old.checks }
    ensures notes { Notes pending.old.stores pending.new.stores log.old.items log.new.items }
    ensures contents { Notes pending.old.stores pending.new.stores
        (all_whole contents.old.items) (all_whole contents.new.items) }
{
    for store in stores.into_vec() {
        put_noting(alloc, pending, log, contents, store)?;
    }
    Ok(())
}

/// Puts several stores and deletes behind the others: all of them, or none. What they replace is noted in
/// the log. With an error all is as before.
#[tactic(auto, using(crate::proofs::Undoing::given_back, crate::proofs::Undoing::log_before))]
fn put_all_noting(
    alloc: Global,
    pending: &mut Pending,
    log: &mut Vec<Replaced>,
    stores: ListOf<PendingStore>,
) -> Result<(), PendingError>
    requires filled { All (λ p. IsRecord p.content) stores }
    ensures answer { AreStoredUnlessTooLong (stores_after pending.old.stores stores) pending.new.stores result }
    ensures checks { pending.new.checks ≡ pending.old.checks }
    ensures notes { OnOk result (Notes pending.old.stores pending.new.stores log.old.items log.new.items) }
    ensures err { OnErr result (pending.new ≡ pending.old) }
    ensures err_log { OnErr result (log.new.items ≡ log.old.items) }
{
    let extent = pending.extent();
    let count = log.len();
    let mut contents = Vec::new(alloc);
    match put_each(alloc, pending, log, &mut contents, stores) {
        Ok(()) => Ok(()),
        Err(why) => {
            pending.go_back(contents, extent);
            log.truncate(count);
            Err(why)
        }
    }
}

/// Puts a store or delete behind the others, as `Pending::put` does, and notes in the log what it replaces,
/// where something is saved. With an error all is as before.
pub(crate) fn put_in(
    alloc: Global,
    pending: &mut Pending,
    log: &mut Vec<Replaced>,
    is_saved: bool,
    store: PendingStore,
) -> Result<(), PendingError>
    requires filled { IsRecord store.content }
    ensures answer { IsOkUnlessTooLong (excess_with pending.old.stores store) result }
    ensures ok { OnOk result (pending.new.stores ≡ with_pending pending.old.stores store) }
    ensures checks { pending.new.checks ≡ pending.old.checks }
    ensures notes { OnOk result
        (NotesIf is_saved pending.old.stores pending.new.stores log.old.items log.new.items) }
    ensures err { OnErr result (pending.new ≡ pending.old) }
    ensures err_log { OnErr result (log.new.items ≡ log.old.items) }
{
    if is_saved {
        let mut contents = Vec::new(alloc);
        put_noting(alloc, pending, log, &mut contents, store)
    } else {
        pending.put(store)
    }
}

/// Puts several stores and deletes behind the others, as `Pending::store_all` does, and notes in the log what
/// they replace, where something is saved. With an error all is as before.
pub(crate) fn put_all_in(
    alloc: Global,
    pending: &mut Pending,
    log: &mut Vec<Replaced>,
    is_saved: bool,
    stores: ListOf<PendingStore>,
) -> Result<(), PendingError>
    requires filled { All (λ p. IsRecord p.content) stores }
    ensures answer { AreStoredUnlessTooLong (stores_after pending.old.stores stores) pending.new.stores result }
    ensures checks { pending.new.checks ≡ pending.old.checks }
    ensures notes { OnOk result
        (NotesIf is_saved pending.old.stores pending.new.stores log.old.items log.new.items) }
    ensures err { OnErr result (pending.new ≡ pending.old) }
    ensures err_log { OnErr result (log.new.items ≡ log.old.items) }
{
    if is_saved {
        put_all_noting(alloc, pending, log, stores)
    } else {
        pending.store_all(stores)
    }
}
