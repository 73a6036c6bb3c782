//! What a plain list of transactions answers with one value. Each call goes over the list.

ghost use Rattle.std.specs.Prelude.{◌≡◌, ◌<◌, ◌^◌, max, map, length};
ghost use Rattle.std.specs.List.{sum_by};
ghost use Rattle.std.specs.Option.{option_copied};
ghost use Rattle.zb_model.specs.Queries.{changes_up_to, end_of, first_after, greatest_of, greatest_oid, pack_point, transaction_at};

use zb_ids::{Oid, Tid};
use zb_model::{Change, Transaction, change_of};

/// The greatest tid of a packed transaction, or 0.
pub(crate) fn pack_point_of(list: &[Transaction]) -> Tid
    ensures { result ≡ pack_point list.now }
{
    let mut greatest = Tid(0);
    for transaction in list {
        if transaction.packed && greatest < transaction.tid {
            greatest = transaction.tid;
        }
    }
    greatest
}

/// The greatest of a number and those of the objects that are changed.
fn greatest_with(least: Oid, changes: &[Change]) -> Oid
    ensures { result ≡ max least (greatest_of (map (λ change. change.oid) changes.now)) }
{
    let mut greatest = least;
    for change in changes {
        if greatest < change.oid {
            greatest = change.oid;
        }
    }
    greatest
}

/// The greatest number of an object that is changed, or 0.
#[tactic(auto, using(crate::proofs::Greatest::greatest_first))]
pub(crate) fn greatest_oid_of(list: &[Transaction]) -> Oid
    ensures { result ≡ greatest_oid list.now }
{
    let mut greatest = Oid(0);
    for transaction in list {
        greatest = greatest_with(greatest, transaction.changes.as_slice());
    }
    greatest
}

/// How many changes the transactions up to a tid have.
#[tactic(auto, using(crate::proofs::Counts::changes_first, crate::proofs::Counts::changes_within))]
pub(crate) fn count_to(list: &[Transaction], tid: Tid) -> u64
    requires { sum_by (λ t. length t.changes) list.now < 2 ^ 64 }
    ensures { result ≡ changes_up_to tid list.now }
{
    let mut count: u64 = 0;
    for transaction in list {
        if transaction.tid <= tid {
            count += transaction.changes.len() as u64;
        }
    }
    count
}

/// The transaction with this tid, where it stands.
pub(crate) fn transaction_with(list: &[Transaction], tid: Tid) -> Option<&Transaction>
    ensures { option_copied result ≡ transaction_at tid list.now }
{
    for transaction in list {
        if transaction.tid == tid {
            return Some(transaction);
        }
    }
    None
}

/// The first transaction above this tid, where it stands.
pub(crate) fn first_above(list: &[Transaction], tid: Tid) -> Option<&Transaction>
    ensures { option_copied result ≡ first_after tid list.now }
{
    for transaction in list {
        if tid < transaction.tid {
            return Some(transaction);
        }
    }
    None
}

/// The serial of an object's next revision: the first one that isn't below the front.
pub(crate) fn next_serial(list: &[Transaction], oid: Oid, front: Tid) -> Option<Tid>
    ensures { result ≡ end_of oid front list.now }
{
    for transaction in list {
        if front <= transaction.tid && change_of(transaction.changes.as_slice(), oid).is_some() {
            return Some(transaction.tid);
        }
    }
    None
}
