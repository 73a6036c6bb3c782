//! The values that a store hands out or takes in, made from a plain list of transactions.

ghost use Rattle.std.specs.Prelude.{◌≡◌, IfOk, map, slice_get};
ghost use Rattle.std.specs.Option.{option_and_then, option_copied};
ghost use Rattle.zb_model.specs.Queries.{found_as, found_below};
ghost use Rattle.zb_model.specs.Voting.{voted_change, voted_content, voted_of};

use crate::walks::next_serial;
use std::alloc::{AllocError, Global};
use zb_ids::{ListOf, Oid, Tid};
use zb_model::{
    Change, Content, Found, NewChange, NewContent, NewTransaction, Transaction, content_at,
    revision_before,
};

/// What is found where the last revision is of this content.
fn found_with(content: &Content, serial: Tid, end: Option<Tid>) -> Result<Found, AllocError>
    ensures { IfOk result (λ found. found ≡ found_as content.now serial end) }
{
    match content {
        Content::Held(bytes) => Ok(Found::Held {
            serial,
            bytes: bytes.clone()?,
            end,
        }),
        Content::Absent => Ok(Found::Absent { serial }),
    }
}

/// An object's last revision below a front, with the serial of its next one. The one error is want of
/// memory.
pub(crate) fn find_below(list: &[Transaction], oid: Oid, front: Tid) -> Result<Found, AllocError>
    ensures { IfOk result (λ found. found ≡ found_below oid front list.now) }
{
    let Some((serial, content)) = revision_before(list, oid, front) else {
        return Ok(Found::Nothing);
    };
    found_with(content, serial, next_serial(list, oid, front))
}

/// A copy of a transaction, if there is one. The one error is want of memory.
pub(crate) fn copy_of(transaction: Option<&Transaction>) -> Result<Option<Transaction>, AllocError>
    ensures { IfOk result (λ copy. copy ≡ option_copied transaction.entry) }
{
    match transaction {
        Some(transaction) => Ok(Some(transaction.clone()?)),
        None => Ok(None),
    }
}

/// A copy of the change at a place of a transaction, if there is one. The one error is want of memory.
pub(crate) fn copy_of_change(
    transaction: Option<&Transaction>,
    number: u64,
) -> Result<Option<Change>, AllocError>
    ensures { IfOk result (λ copy. copy
        ≡ option_and_then (λ t. slice_get t.changes number) (option_copied transaction.entry)) }
{
    let Some(transaction) = transaction else {
        return Ok(None);
    };
    match transaction.changes.as_slice().get(number as usize) {
        Some(change) => Ok(Some(change.clone()?)),
        None => Ok(None),
    }
}

/// What a new content is, over the list. The one error is want of memory.
fn make_content(list: &[Transaction], oid: Oid, content: &NewContent) -> Result<Content, AllocError>
    ensures { IfOk result (λ made. made ≡ voted_content list.now oid content.now) }
{
    match content {
        NewContent::Bytes(bytes) => Ok(Content::Held(bytes.clone()?)),
        NewContent::Absent => Ok(Content::Absent),
        NewContent::AsOf(serial) => match content_at(list, oid, *serial) {
            Some(content) => content.clone(),
            None => Ok(Content::Absent),
        },
    }
}

/// What the new changes are, over the list, in their order. The one error is want of memory.
fn make_changes(
    alloc: Global,
    list: &[Transaction],
    changes: &[NewChange],
) -> Result<ListOf<Change>, AllocError>
    ensures { IfOk result (λ made. made ≡ map (voted_change list.now) changes.now) }
{
    let mut made = ListOf::new(alloc);
    for change in changes {
        let content = make_content(list, change.oid, &change.content)?;
        made.push(Change {
            oid: change.oid,
            content,
        })?;
    }
    Ok(made)
}

/// The transaction that a new one becomes, over the list. The one error is want of memory.
pub(crate) fn make_voted(
    alloc: Global,
    list: &[Transaction],
    new: &NewTransaction,
) -> Result<Transaction, AllocError>
    ensures { IfOk result (λ made. made ≡ voted_of list.now new.now) }
{
    Ok(Transaction {
        tid: new.tid,
        packed: false,
        user: new.user.clone()?,
        description: new.description.clone()?,
        extension: new.extension.clone()?,
        changes: make_changes(alloc, list, new.changes.as_slice())?,
    })
}
