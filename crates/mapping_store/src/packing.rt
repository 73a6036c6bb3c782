//! What a pack leaves of a plain list of transactions. Each object's serial is looked up by going over
//! the list.

ghost use Rattle.std.specs.Prelude.{◌≡◌, ◌+◌, ◌++◌, ◌<◌, ◌≤◌, ◌^◌, List, filter, length, take, IfOk};
ghost use Rattle.zb_model.specs.Database.{IsDatabase};
ghost use Rattle.zb_model.specs.Packing.{is_held, packed_by, packed_one, serial_up_to, stays};
ghost use Rattle.zb_model.specs.declared.data.Transaction.{Transaction};
ghost use Rattle.zb_model.specs.Packs.{change_count, turn_from};

use std::alloc::{AllocError, Global};
use zb_ids::{ListOf, Oid, Tid};
use zb_model::{Change, Content, OidSet, Transaction, change_of};

/// The serial of an object's last revision up to a tid, or 0.
fn serial_to(list: &[Transaction], oid: Oid, tid: Tid) -> Tid
    ensures { result ≡ serial_up_to tid oid list.now }
{
    let mut serial = Tid(0);
    for transaction in list {
        if let Some(_) = change_of(transaction.changes.as_slice(), oid) {
            if transaction.tid <= tid {
                serial = transaction.tid;
            }
        }
    }
    serial
}

/// Whether a record is there.
fn is_held_content(content: &Content) -> bool
    ensures { result ≡ is_held content.now }
{
    match content {
        Content::Held(_) => true,
        Content::Absent => false,
    }
}

/// Whether a change of the transaction with this serial stays in a pack up to a tid.
fn is_staying(list: &[Transaction], tid: Tid, keep: &OidSet, serial: Tid, change: &Change) -> bool
    ensures { result ≡ stays tid keep.now list.now serial change.now }
{
    is_held_content(&change.content)
        && keep.contains(change.oid)
        && serial_to(list, change.oid, tid) == serial
}

/// The changes of a transaction that stay in a pack up to a tid. The one error is want of memory.
fn staying_changes(
    alloc: Global,
    list: &[Transaction],
    tid: Tid,
    keep: &OidSet,
    transaction: &Transaction,
) -> Result<ListOf<Change>, AllocError>
    ensures { IfOk result (λ changes.
        changes ≡ filter (stays tid keep.now list.now transaction.now.tid) transaction.now.changes) }
{
    let mut staying = ListOf::new(alloc);
    for change in transaction.changes.as_slice() {
        if is_staying(list, tid, keep, transaction.tid, change) {
            staying.push(change.clone()?)?;
        }
    }
    Ok(staying)
}

/// What a pack up to a tid leaves of a transaction, if anything. The one error is want of memory.
fn packed_form_of(
    alloc: Global,
    list: &[Transaction],
    tid: Tid,
    keep: &OidSet,
    transaction: &Transaction,
) -> Result<Option<Transaction>, AllocError>
    ensures { IfOk result (λ form. form ≡ packed_one tid keep.now list.now transaction.now) }
{
    if tid < transaction.tid {
        return Ok(Some(transaction.clone()?));
    }
    let changes = staying_changes(alloc, list, tid, keep, transaction)?;
    if changes.is_empty() {
        return Ok(None);
    }
    Ok(Some(Transaction {
        tid: transaction.tid,
        packed: true,
        user: transaction.user.clone()?,
        description: transaction.description.clone()?,
        extension: transaction.extension.clone()?,
        changes,
    }))
}

/// The list, packed up to a tid, where just these objects are kept. Packing a database leaves one, with
/// no more changes. The one error is want of memory.
pub(crate) fn pack_list(
    alloc: Global,
    list: &[Transaction],
    tid: Tid,
    keep: &OidSet,
) -> Result<Vec<Transaction>, AllocError>
    ensures packed { IfOk result (λ packed. packed.items ≡ packed_by tid keep.now list.now) }
    ensures fewer { IfOk result (λ packed. change_count packed.items ≤ change_count list.now) }
    ensures database { IsDatabase list.now → IfOk result (λ packed. IsDatabase packed.items) }
{
    let mut packed = Vec::new(alloc);
    for transaction in list {
        if let Some(form) = packed_form_of(alloc, list, tid, keep, transaction)? {
            packed.push(form)?;
        }
    }
    Ok(packed)
}

/// How many changes the transactions have.
#[tactic(auto, using(crate::proofs::Counts::count_first))]
pub(crate) fn count_changes(list: &[Transaction]) -> u64
    requires { change_count list.now < 2 ^ 64 }
    ensures { result ≡ change_count list.now }
{
    let mut count: u64 = 0;
    for transaction in list {
        count += transaction.changes.len() as u64;
    }
    count
}

/// How many changes are copied when a turn ends.
const CHANGES_A_TURN: u64 = 64;

/// How many of these transactions a turn copies.
#[tactic(auto, using(crate::proofs::Counts::count_first, crate::proofs::Turns::turn_next))]
fn turn_length(list: &[Transaction]) -> usize
    requires { change_count list.now < 2 ^ 64 }
    ensures within { result ≤ length list.now }
    ensures turn { take result list.now ≡ turn_from 0 list.now }
{
    let mut count: u64 = 0;
    let mut number = 0;
    for transaction in list {
        if count >= CHANGES_A_TURN {
            return number;
        }
        count += transaction.changes.len() as u64;
        number += 1;
    }
    number
}

/// How many transactions of a packed list are copied behind a turn, where so many were before it.
pub(crate) fn copied_length(packed: &[Transaction], first: usize) -> usize
    requires first { first ≤ length packed.now }
    requires bounded { change_count packed.now < 2 ^ 64 }
    ensures within { result ≤ length packed.now }
    ensures turn { (front rest : List Transaction) → packed.now ≡ front ++ rest → length front ≡ first
        → take result packed.now ≡ front ++ turn_from 0 rest }
{
    first + turn_length(&packed[first..])
}
