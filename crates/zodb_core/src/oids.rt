//! Numbers of objects.

ghost use Rattle.std.specs.Prelude.{◌≡◌, IfOk, map, max};
ghost use Rattle.zb_model.specs.Queries.{greatest_of};

use std::alloc::{AllocError, Global};
use zb_ids::{ListOf, Oid};
use zb_model::NewChange;

/// The objects that are changed, in their order. The one error is want of memory.
pub(crate) fn changed_oids(alloc: Global, changes: &[NewChange]) -> Result<ListOf<Oid>, AllocError>
    ensures { IfOk result (λ oids. oids ≡ map (λ change. change.oid) changes.now) }
{
    let mut oids = ListOf::new(alloc);
    for change in changes {
        oids.push(change.oid)?;
    }
    Ok(oids)
}

/// The greatest of these numbers and of another one.
pub(crate) fn greatest_with(oids: &[Oid], other: Oid) -> Oid
    ensures { result ≡ max other (greatest_of oids.now) }
{
    let mut greatest = other;
    for oid in oids {
        if greatest < *oid {
            greatest = *oid;
        }
    }
    greatest
}
