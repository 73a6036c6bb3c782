//! What the data records of an index file change is counted.

ghost use Rattle.std.specs.Prelude.{◌≡◌, ℕ, ◌+◌, ◌<◌, ◌≤◌, None, Option, Some, false, length, slice_get, IfOk};
ghost use Rattle.std.specs.Option.{unwrap_or};
ghost use Rattle.fs_index.specs.declared.place.Place.{Place};
ghost use Rattle.fs_index.specs.Places.{IsRising};
ghost use Rattle.fs_recovery.specs.declared.counted.Counted.{Counted};
ghost use Rattle.fs_index_file.specs.Counts.{AreCounted, RisesFrom, is_again, nothing_counted, with_object, with_record};

use fs_index::{Place, Placed};
use fs_recovery::{Counted, Numbers};
use std::alloc::{AllocError, Global};
use zb_ids::{Oid, Tid};

/// Where nothing is counted.
const NOTHING: Counted = Counted {
    changes: 0,
    greatest: Oid(0),
};

/// Nothing is counted yet of any of these transactions. The one error is want of memory.
pub(crate) fn none_counted(alloc: Global, starts: &[Place]) -> Result<Vec<Counted>, AllocError>
    ensures { IfOk result (λ c. c.items ≡ nothing_counted starts.now) }
{
    let mut counted = Vec::new(alloc);
    'each: for _start in starts {
        counted.push(NOTHING)?;
    }
    Ok(counted)
}

/// Whether a data record is of the object and the transaction of the one before it.
fn is_same(last: &Placed, entry: &Placed) -> bool
    ensures { result ≡ is_again last.now entry.now }
{
    last.oid == entry.oid && last.place.serial == entry.place.serial
}

/// With one object more.
fn more(counted: &Counted, oid: Oid) -> Counted
    ensures { result ≡ with_object oid counted.now }
{
    let greatest = if counted.greatest < oid {
        oid
    } else {
        counted.greatest
    };
    Counted {
        changes: counted.changes.saturating_add(1),
        greatest,
    }
}

/// How many transactions are before the one with this number.
fn place_of(starts: &[Place], serial: Tid) -> usize
    requires { IsRising starts.now }
    ensures within { result ≤ length starts.now }
    ensures before { (k : ℕ) (p : Place) → k < result → slice_get starts.now k ≡ Some p
        → p.serial < serial }
    ensures behind { (k : ℕ) (p : Place) → result ≤ k → slice_get starts.now k ≡ Some p
        → serial ≤ p.serial }
{
    starts.partition_point(|start| start.serial < serial)
}

/// Counts a data record behind another for its transaction, unless it is of the object and the
/// transaction of that.
pub(crate) fn count(counted: &mut [Counted], starts: &[Place], last: &Placed, entry: &Placed)
    requires { IsRising starts.now }
    ensures { RisesFrom 0 starts.now
        → counted.new ≡ with_record last.now entry.now starts.now counted.old }
{
    if is_same(last, entry) {
        return;
    }
    let at = place_of(starts, entry.place.serial);
    if at < starts.len() && at < counted.len() && starts[at].serial == entry.place.serial {
        counted[at] = more(&counted[at], entry.oid);
    }
}

/// Whether a pack has gone over the transaction of this number.
fn packed_at(packed: &[bool], number: usize) -> bool
    ensures { result ≡ unwrap_or (slice_get packed.now number) false }
{
    match packed.get(number) {
        Some(packed) => *packed,
        None => false,
    }
}

/// What is counted of the transaction of this number.
fn counted_at(counted: &[Counted], number: usize) -> Counted
    ensures { (c : Counted) → slice_get counted.now number ≡ Some c → result ≡ c }
{
    match counted.get(number) {
        Some(counted) => *counted,
        None => NOTHING,
    }
}

/// The numbers of transactions that stand at these places, were packed or not, and change so much. The
/// one error is want of memory.
pub(crate) fn numbers_of(
    alloc: Global,
    starts: &[Place],
    packed: &[bool],
    counted: &[Counted],
) -> Result<Numbers, AllocError>
    ensures { IfOk result (λ n. AreCounted starts.now packed.now counted.now n) }
{
    let mut numbers = Numbers::new(alloc);
    let mut k = 0;
    'each: for start in starts {
        numbers.add_counted(start.serial, packed_at(packed, k), counted_at(counted, k))?;
        k += 1;
    }
    Ok(numbers)
}
