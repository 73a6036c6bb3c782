//! What a plain list of transactions answers. Each call goes over the whole list.

ghost use Rattle.std.specs.Prelude.{◌≡◌, ℕ};
ghost use Rattle.std.specs.Option.{option_copied, option_map};
ghost use Rattle.zb_model.specs.Database.{change_in, newest_tid, revision_below, serial_of};
ghost use Rattle.zb_model.specs.Seen.{seen_revision};
ghost use Rattle.zb_model.specs.Voting.{revision_at};

use crate::data::{Change, Content, Transaction};
use zb_ids::{Oid, Tid};

/// The tid of the last transaction, or 0 where there is none.
pub fn newest_of(list: &[Transaction]) -> Tid
    ensures { result ≡ newest_tid list.now }
{
    match list.last() {
        Some(transaction) => transaction.tid,
        None => Tid(0),
    }
}

/// The last of these changes that is of the object.
pub fn change_of(changes: &[Change], oid: Oid) -> Option<&Change>
    ensures { option_copied result ≡ change_in oid changes.now }
{
    let mut last = None;
    for change in changes {
        if change.oid == oid {
            last = Some(change);
        }
    }
    last
}

/// The serial and the content of an object's last revision below a front, or `None` where no
/// revision stands below it.
pub fn revision_before(list: &[Transaction], oid: Oid, front: Tid) -> Option<(Tid, &Content)>
    ensures { seen_revision result ≡ revision_below oid front list.now }
{
    let mut last = None;
    for transaction in list {
        if let Some(change) = change_of(transaction.changes.as_slice(), oid) {
            if transaction.tid < front {
                last = Some((transaction.tid, &change.content));
            }
        }
    }
    last
}

/// The content of an object's revision with this serial, where it stands, or `None` where no revision
/// has it.
pub fn content_at(list: &[Transaction], oid: Oid, serial: Tid) -> Option<&Content>
    ensures { option_copied result ≡ option_map (λ r. r.content) (revision_at oid serial list.now) }
{
    for transaction in list {
        if let Some(change) = change_of(transaction.changes.as_slice(), oid) {
            if transaction.tid == serial {
                return Some(&change.content);
            }
        }
    }
    None
}

/// The serial of an object's last revision, or 0 where it has none.
pub fn serial_in(list: &[Transaction], oid: Oid) -> Tid
    ensures { result ≡ serial_of oid list.now }
{
    let mut serial = Tid(0);
    for transaction in list {
        if change_of(transaction.changes.as_slice(), oid).is_some() {
            serial = transaction.tid;
        }
    }
    serial
}
