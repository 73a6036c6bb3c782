//! A transaction that was read is written anew.

ghost use Rattle.std.specs.Prelude.{◌≡◌, map, IfOk};
ghost use Rattle.zb_model.specs.Voting.{IsWellFormed};
ghost use Rattle.fs_reading.specs.Formed.{IsFormed};
ghost use Rattle.pack_copy.specs.Renewing.{anew, change_anew, content_anew};

use std::alloc::{AllocError, Global};
use zb_ids::ListOf;
use zb_model::{Change, Content, NewChange, NewContent, NewTransaction, Transaction};

/// A content in full.
fn content_anew(content: Content) -> NewContent
    ensures { result ≡ content_anew content }
{
    match content {
        Content::Held(bytes) => NewContent::Bytes(bytes),
        Content::Absent => NewContent::Absent,
    }
}

/// A change with its content in full.
fn change_anew(change: Change) -> NewChange
    ensures { result ≡ change_anew change }
{
    let Change { oid, content } = change;
    NewChange {
        oid,
        content: content_anew(content),
    }
}

/// Some changes with their contents in full, in their order. The one error is want of memory.
fn changes_anew(alloc: Global, changes: ListOf<Change>) -> Result<ListOf<NewChange>, AllocError>
    ensures { IfOk result (λ new. new ≡ map change_anew changes) }
{
    let new: Vec<NewChange> = changes
        .into_vec()
        .into_iter()
        .map(|change| change_anew(change))
        .collect(alloc)?;
    Ok(ListOf::from_vec(new))
}

/// A transaction as a new one with the same changes, each content in full. The one error is want of
/// memory.
pub fn anew(alloc: Global, transaction: Transaction) -> Result<NewTransaction, AllocError>
    ensures value { IfOk result (λ new. new ≡ anew transaction) }
{
    let Transaction {
        tid,
        packed: _,
        user,
        description,
        extension,
        changes,
    } = transaction;
    Ok(NewTransaction {
        tid,
        user,
        description,
        extension,
        changes: changes_anew(alloc, changes)?,
    })
}
