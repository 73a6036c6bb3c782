//! Where the data records of an outlined transaction are to stand.

ghost use Rattle.std.specs.Prelude.{◌≡◌, ◌+◌, IfOk, IfSome};
ghost use Rattle.pack_copy.specs.Outlined.{end_in, placed_in, source_size};

use crate::ready::Ready;
use fs_index::{Place, Placed};
use fs_reading::{OutlinedChange, Source};
use fs_records::DATA_HEADER_LENGTH;
use std::alloc::{AllocError, Global};
use zb_ids::{ListOf, Tid};

/// How many bytes stand behind the data records of a transaction: its length once more.
const CLOSING_LENGTH: u64 = 8;

/// How many bytes a back pointer has.
const BACK_POINTER_LENGTH: u64 = 8;

/// The place behind the data record of a content that stands at a place, or `None` where it is past
/// 2^64 - 1.
fn behind(at: u64, source: Option<Source>) -> Option<u64>
    ensures { IfSome result (λ next. next ≡ at + source_size source) }
{
    let payload = at.checked_add(DATA_HEADER_LENGTH as u64)?;
    match source {
        Some(source) => payload.checked_add(source.length),
        None => payload.checked_add(BACK_POINTER_LENGTH),
    }
}

/// Where the data records of some changes of the transaction with this number stand, one behind
/// another from a place on, and where the transaction ends. The one error is want of memory, also
/// where it would end past 2^64 - 1.
pub(crate) fn place_records(
    alloc: Global,
    tid: Tid,
    from: u64,
    changes: &[OutlinedChange],
) -> Result<Ready, AllocError>
    ensures records { IfOk result (λ ready. ready.records ≡ placed_in tid from changes.now) }
    ensures end { IfOk result (λ ready. ready.end ≡ end_in from changes.now + 8) }
{
    let mut records = Vec::with_capacity(alloc, changes.len())?;
    let mut at = from;
    'place: for change in changes {
        let Some(next) = behind(at, change.source) else {
            return Err(AllocError);
        };
        records.push(Placed {
            oid: change.oid,
            place: Place { serial: tid, at },
        })?;
        at = next;
    }
    let Some(end) = at.checked_add(CLOSING_LENGTH) else {
        return Err(AllocError);
    };
    Ok(Ready {
        records: ListOf::from_vec(records),
        end,
    })
}
