//! What objects are and were, read of a store.

ghost use Rattle.std.specs.Prelude.{◌≡◌, false, IfOk};
ghost use Rattle.zb_model.specs.Stores.{IsOnlyRead};
ghost use Rattle.zb_model.specs.Voting.{content_as_of};
ghost use Rattle.undo_records.specs.Reading.{content_found, content_found_at, found_taken_over};
ghost use Rattle.undo_records.specs.Undone.{content_now, is_same, last_content};

use crate::written::Written;
use std::alloc::Global;
use zb_ids::{Oid, Tid};
use zb_model::{Content, Found, NewContent, Store, StoreError};

/// What was found of an object, as its content: nothing counts as gone.
pub(crate) fn content_of(found: Found) -> Content
    ensures { result ≡ content_found found }
{
    match found {
        Found::Held {
            serial: _,
            bytes,
            end: _,
        } => Content::Held(bytes),
        Found::Absent { serial: _ } => Content::Absent,
        Found::Nothing => Content::Absent,
    }
}

/// The content that was found, where it has this serial.
fn content_with(found: Found, serial: Tid) -> Content
    ensures { result ≡ content_found_at serial found }
{
    match found {
        Found::Held {
            serial: at,
            bytes,
            end: _,
        } => {
            if at == serial {
                Content::Held(bytes)
            } else {
                Content::Absent
            }
        }
        Found::Absent { serial: _ } => Content::Absent,
        Found::Nothing => Content::Absent,
    }
}

/// What is taken over of what was found: its serial, and none of its bytes.
pub(crate) fn take_over(found: &Found) -> NewContent
    ensures { result ≡ found_taken_over found.now }
{
    match found {
        Found::Held {
            serial,
            bytes: _,
            end: _,
        } => NewContent::AsOf(*serial),
        Found::Absent { serial: _ } => NewContent::Absent,
        Found::Nothing => NewContent::Absent,
    }
}

/// Whether both are gone, or their bytes are equal.
pub(crate) fn are_same(one: &Content, other: &Content) -> bool
    ensures { result ≡ is_same one.now other.now }
{
    match one {
        Content::Held(bytes) => match other {
            Content::Held(others) => bytes == others,
            Content::Absent => false,
        },
        Content::Absent => match other {
            Content::Held(_) => false,
            Content::Absent => true,
        },
    }
}

/// The content of an object's last revision.
fn load_last<St: Store>(alloc: Global, store: &mut St, oid: Oid) -> Result<Content, StoreError>
    requires whole { (St.state store.old).broken ≡ false }
    ensures last { St.told → IfOk result (λ content. content ≡ last_content oid (St.state store.old).list) }
    ensures read { IsOnlyRead (St.state store.old) (St.state store.new) result }
{
    let front = Tid(store.newest().0 + 1);
    let found = store.load_before(alloc, oid, front)?;
    Ok(content_of(found))
}

/// The content that an object has in its revision with a serial.
fn load_as_of<St: Store>(
    alloc: Global,
    store: &mut St,
    oid: Oid,
    serial: Tid,
) -> Result<Content, StoreError>
    requires whole { (St.state store.old).broken ≡ false }
    ensures as_of { St.told → IfOk result (λ content. content ≡ content_as_of oid serial (St.state store.old).list) }
    ensures read { IsOnlyRead (St.state store.old) (St.state store.new) result }
{
    if serial.0 == u64::MAX {
        return Ok(Content::Absent);
    }
    let found = store.load_before(alloc, oid, Tid(serial.0 + 1))?;
    Ok(content_with(found, serial))
}

/// The content that an object has now: what is written of it, else that of its last revision.
pub(crate) fn load_now<St: Store>(
    alloc: Global,
    store: &mut St,
    written: &Written,
    oid: Oid,
) -> Result<Content, StoreError>
    requires whole { (St.state store.old).broken ≡ false }
    ensures now { St.told → IfOk result (λ content. content ≡ content_now (St.state store.old).list written.now oid) }
    ensures read { IsOnlyRead (St.state store.old) (St.state store.new) result }
{
    match written.get(oid) {
        Some(NewContent::Bytes(bytes)) => Ok(Content::Held(bytes.clone()?)),
        Some(NewContent::Absent) => Ok(Content::Absent),
        Some(NewContent::AsOf(serial)) => load_as_of(alloc, store, oid, *serial),
        None => load_last(alloc, store, oid),
    }
}
