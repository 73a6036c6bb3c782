//! What a pack leaves of a transaction.

ghost use Rattle.std.specs.Prelude.{◌≡◌, filter, IfSome};
ghost use Rattle.fs_index.specs.Places.{IsRising};
ghost use Rattle.fs_reading.specs.Outlines.{AreOutlined, IsOutline};
ghost use Rattle.pack_copy.specs.Filtering.{left_in, serial_among, stays_in};

use fs_index::{Index, Place};
use fs_reading::{Outline, OutlinedChange};
use zb_ids::{ListOf, Tid};
use zb_model::OidSet;

/// The serial of the last of these places up to a tid, or 0 where there is none.
fn serial_among(places: &[Place], tid: Tid) -> Tid
    requires { IsRising places.now }
    ensures { result ≡ serial_among tid places.now }
{
    let n = places.partition_point(|p| p.serial <= tid);
    if n == 0 {
        return Tid(0);
    }
    places[n - 1].serial
}

/// Whether a change of the transaction with the number `of`, which is up to the tid, stays.
fn stays(from: &Index, tid: Tid, keep: &OidSet, of: Tid, change: &OutlinedChange) -> bool
    ensures { result ≡ stays_in tid keep.now from.now.entries of change.now }
{
    change.source.is_some()
        && keep.contains(change.oid)
        && serial_among(from.places(change.oid), tid) == of
}

/// The changes of the transaction with the number `of` that stay. It takes no memory.
fn changes_left(
    from: &Index,
    tid: Tid,
    keep: &OidSet,
    of: Tid,
    changes: ListOf<OutlinedChange>,
) -> ListOf<OutlinedChange>
    requires { AreOutlined changes }
    ensures value { result ≡ filter (stays_in tid keep.now from.now.entries of) changes }
    ensures formed { AreOutlined result }
{
    let mut left = changes.into_vec();
    left.retain(|change| stays(from, tid, keep, of, change));
    ListOf::from_vec(left)
}

/// What is left of a transaction of the file with this index, packed up to a tid, where just these
/// objects are kept: a later one whole. It takes no memory.
pub(crate) fn left_of(from: &Index, tid: Tid, keep: &OidSet, outline: Outline) -> Option<Outline>
    requires { IsOutline outline }
    ensures value { result ≡ left_in tid keep.now from.now.entries outline }
    ensures formed { IfSome result (λ left. IsOutline left) }
    ensures same { IfSome result (λ left. left.tid ≡ outline.tid) }
{
    if outline.tid > tid {
        return Some(outline);
    }
    let Outline {
        tid: of,
        packed: _,
        user,
        description,
        extension,
        changes,
    } = outline;
    let left = changes_left(from, tid, keep, of, changes);
    if left.is_empty() {
        return None;
    }
    Some(Outline {
        tid: of,
        packed: true,
        user,
        description,
        extension,
        changes: left,
    })
}
