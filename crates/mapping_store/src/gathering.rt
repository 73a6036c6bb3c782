//! Lists that are gathered from a plain list of transactions.

ghost use Rattle.std.specs.Prelude.{◌≡◌, IfOk};
ghost use Rattle.zb_model.specs.Lists.{history_line, history_of, log_line, size_of, undo_log_before, undo_log_of};

use std::alloc::{AllocError, Global};
use zb_ids::{Oid, Tid};
use zb_model::{Content, LogLine, Revision, Transaction, change_of};

/// How many bytes a content has, if it has any.
fn size_of_content(content: &Content) -> Option<u64>
    ensures { result ≡ size_of content.now }
{
    match content {
        Content::Held(bytes) => Some(bytes.len() as u64),
        Content::Absent => None,
    }
}

/// What a history says of the object's change in a transaction, if there is one.
fn revision_in(transaction: &Transaction, oid: Oid) -> Result<Option<Revision>, AllocError>
    ensures { IfOk result (λ line. line ≡ history_line oid transaction.now) }
{
    let Some(change) = change_of(transaction.changes.as_slice(), oid) else {
        return Ok(None);
    };
    Ok(Some(Revision {
        tid: transaction.tid,
        size: size_of_content(&change.content),
        user: transaction.user.clone()?,
        description: transaction.description.clone()?,
    }))
}

/// Every change of an object, the newest first. The one error is want of memory.
pub(crate) fn gather_history(
    alloc: Global,
    list: &[Transaction],
    oid: Oid,
) -> Result<Vec<Revision>, AllocError>
    ensures { IfOk result (λ lines. lines.items ≡ history_of oid list.now) }
{
    let mut revisions = Vec::new(alloc);
    for transaction in list {
        if let Some(revision) = revision_in(transaction, oid)? {
            revisions.push(revision)?;
        }
    }
    revisions.reverse();
    Ok(revisions)
}

/// What the undo list says of a transaction.
fn line_of(transaction: &Transaction) -> Result<LogLine, AllocError>
    ensures { IfOk result (λ line. line ≡ log_line transaction.now) }
{
    Ok(LogLine {
        tid: transaction.tid,
        user: transaction.user.clone()?,
        description: transaction.description.clone()?,
    })
}

/// Every transaction that no pack has gone over, the newest first. The one error is want of memory.
pub(crate) fn gather_undo_log(
    alloc: Global,
    list: &[Transaction],
) -> Result<Vec<LogLine>, AllocError>
    ensures { IfOk result (λ lines. lines.items ≡ undo_log_of list.now) }
{
    let mut lines = Vec::new(alloc);
    for transaction in list {
        if !transaction.packed {
            lines.push(line_of(transaction)?)?;
        }
    }
    lines.reverse();
    Ok(lines)
}

/// No more than so many lines of the undo list, the newest first, of the transactions below a tid. The
/// one error is want of memory.
pub(crate) fn gather_undo_log_before(
    alloc: Global,
    list: &[Transaction],
    below: Tid,
    count: u64,
) -> Result<Vec<LogLine>, AllocError>
    ensures { IfOk result (λ lines. lines.items ≡ undo_log_before below count list.now) }
{
    let mut lines = Vec::new(alloc);
    for transaction in list {
        if transaction.tid < below && !transaction.packed {
            lines.push(line_of(transaction)?)?;
        }
    }
    lines.reverse();
    lines.truncate(count as usize);
    Ok(lines)
}
