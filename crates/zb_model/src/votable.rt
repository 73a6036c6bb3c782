//! Whether a new transaction may be voted over a plain list. Each call goes over the whole list.

ghost use Rattle.std.specs.Prelude.{◌↔◌, ◌≡◌, IsTrue, All, map, nat_eq, false, true};
ghost use Rattle.std.specs.List.{IsDistinct};
ghost use Rattle.zb_model.specs.Voting.{IsFilled, NamesRevision, IsVotable, IsWellFormed};

use crate::data::{Content, Transaction};
use crate::new_transaction::{NewChange, NewContent, NewTransaction};
use crate::plain::{content_at, newest_of};
use zb_ids::Oid;

/// Whether none of these changes is of the object.
fn is_unnamed(changes: &[NewChange], oid: Oid) -> bool
    ensures { IsTrue result ↔ All (λ c. nat_eq oid c.oid ≡ false) changes.now }
{
    for change in changes {
        if oid == change.oid {
            return false;
        }
    }
    true
}

/// Whether no object is named twice.
fn are_distinct(changes: &[NewChange]) -> bool
    ensures { IsTrue result ↔ IsDistinct nat_eq (map (λ c. c.oid) changes.now) }
{
    for place in 0..changes.len() {
        if !is_unnamed(&changes[place + 1..], changes[place].oid) {
            return false;
        }
    }
    true
}

/// Whether new bytes aren't empty.
fn is_filled(content: &NewContent) -> bool
    ensures { IsTrue result ↔ IsFilled content.now }
{
    match content {
        NewContent::Bytes(bytes) => !bytes.is_empty(),
        NewContent::Absent => true,
        NewContent::AsOf(_) => true,
    }
}

/// Whether no record is empty.
fn are_filled(changes: &[NewChange]) -> bool
    ensures { IsTrue result ↔ All (λ c. IsFilled c.content) changes.now }
{
    for change in changes {
        if !is_filled(&change.content) {
            return false;
        }
    }
    true
}

/// Whether a new transaction is well formed: its number has one after it, each text is at most 65,535
/// bytes long, each object is named once, and no record is empty.
pub fn is_well_formed(new: &NewTransaction) -> bool
    ensures { IsTrue result ↔ IsWellFormed new.now }
{
    new.tid.0 < u64::MAX
        && new.user.len() <= 65535
        && new.description.len() <= 65535
        && new.extension.len() <= 65535
        && are_distinct(new.changes.as_slice())
        && are_filled(new.changes.as_slice())
}

/// Whether an earlier content is a record that the object had.
fn is_sound(list: &[Transaction], oid: Oid, content: &NewContent) -> bool
    ensures { IsTrue result ↔ NamesRevision list.now oid content.now }
{
    match content {
        NewContent::Bytes(_) => true,
        NewContent::Absent => true,
        NewContent::AsOf(serial) => match content_at(list, oid, *serial) {
            Some(Content::Held(_)) => true,
            Some(Content::Absent) => false,
            None => false,
        },
    }
}

/// Whether the content of each change is sound.
fn are_sound(list: &[Transaction], changes: &[NewChange]) -> bool
    ensures { IsTrue result ↔ All (λ c. NamesRevision list.now c.oid c.content) changes.now }
{
    for change in changes {
        if !is_sound(list, change.oid, &change.content) {
            return false;
        }
    }
    true
}

/// Whether a new transaction is well formed and may be voted over a list of transactions.
pub fn is_votable(list: &[Transaction], new: &NewTransaction) -> bool
    ensures { IsTrue result ↔ (IsWellFormed new.now × IsVotable list.now new.now) }
{
    is_well_formed(new) && newest_of(list) < new.tid && are_sound(list, new.changes.as_slice())
}
