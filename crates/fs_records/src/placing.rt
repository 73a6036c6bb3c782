//! Where the data records of a new transaction stand.

ghost use Rattle.std.specs.Prelude.{◌≡◌, ◌<◌, ◌^◌, IfOk};
ghost use Rattle.fs_records.specs.Placing.{placed_end, placed_from};

use crate::writing::record_length;
use fs_index::{Place, Placed};
use std::alloc::{AllocError, Global};
use zb_ids::{ListOf, Tid};
use zb_model::NewChange;

/// Where the data records of some changes of the transaction with this number stand, one behind
/// another from a place on. The one error is want of memory.
pub fn placed_records(
    alloc: Global,
    tid: Tid,
    from: u64,
    changes: &[NewChange],
) -> Result<ListOf<Placed>, AllocError>
    requires { placed_end from changes.now < 2 ^ 63 }
    ensures { IfOk result (λ placed. placed ≡ placed_from tid from changes.now) }
{
    let mut placed = Vec::with_capacity(alloc, changes.len())?;
    let mut at = from;
    'place: for (count, change) in changes.iter().enumerate() {
        let place = Place { serial: tid, at };
        placed.push(Placed {
            oid: change.oid,
            place,
        })?;
        at += record_length(&change.content);
    }
    Ok(ListOf::from_vec(placed))
}
