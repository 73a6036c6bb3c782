//! The first transaction of a database.

ghost use Rattle.std.specs.Prelude.{◌≡◌, ◌<◌, ◌-◌, ◌^◌, ◌∷◌, [], IfOk};
ghost use Rattle.zb_ids.specs.Tids.{stamp_number};
ghost use Rattle.zb_model.specs.Creation.{first_transaction};
ghost use Rattle.zb_model.specs.Database.{IsDatabase};

use crate::data::{Change, Content, Transaction};
use std::alloc::{AllocError, Global};
use zb_ids::{ListOf, Oid, Stamp, Text8, Tid, tid_of_stamp};

/// The record of the root object: an empty persistent mapping.
const ROOT_RECORD: &[u8] =
    b"\x80\x03cpersistent.mapping\nPersistentMapping\n.\x80\x03}X\x04\x00\x00\x00data}s.";

/// The transaction that a new database begins with. It makes the root object, object 0, an empty
/// persistent mapping, and has the clock's tid, or 1 where that is 0. The one error is want of
/// memory.
pub fn first_transaction(alloc: Global, clock: Stamp) -> Result<Transaction, AllocError>
    ensures value { IfOk result (λ first. first ≡ first_transaction (stamp_number clock)) }
    ensures bound { IfOk result (λ first. first.tid < 2 ^ 64 - 1) }
    ensures database { IfOk result (λ first. IsDatabase (first ∷ [])) }
{
    let now = tid_of_stamp(clock);
    let tid = if now > Tid(0) { now } else { Tid(1) };
    let mut changes = ListOf::new(alloc);
    changes.push(Change {
        oid: Oid(0),
        content: Content::Held(Text8::from_slice(alloc, ROOT_RECORD)?),
    })?;
    Ok(Transaction {
        tid,
        packed: false,
        user: Text8::new(alloc),
        description: Text8::from_slice(alloc, b"initial database creation")?,
        extension: Text8::new(alloc),
        changes,
    })
}
