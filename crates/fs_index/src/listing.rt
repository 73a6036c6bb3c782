//! The objects of an index, in order.

ghost use Rattle.std.specs.Prelude.{◌≡◌, ℕ, ◌<◌, ◌++◌, map, option_map, slice_get, IfOk, OnOk};
ghost use Rattle.std.specs.List.{Contains};
ghost use Rattle.std.specs.List.Sorted.{IsStrictlyIncreasing};
ghost use Rattle.fs_index.specs.Listed.{AreAmong, AreListed, placed};

use crate::place::{Place, Placed};
use crate::places::Places;
use indexmap::IndexMap;
use std::alloc::AllocError;
use zb_ids::Oid;

/// Puts the objects with the first numbers behind these. The one error is want of memory.
pub(crate) fn list_first(oids: &mut Vec<Oid>, count: usize) -> Result<(), AllocError>
    ensures first { OnOk result ((o : ℕ) → o < count → Contains oids.new.items o) }
    ensures kept { OnOk result (AreAmong oids.old.items oids.new.items) }
{
    'each: for number in 0..count {
        oids.push(Oid(number as u64))?;
    }
    Ok(())
}

/// The object of an entry of a table.
fn key_at(others: &IndexMap<Oid, Places>, number: usize) -> Option<Oid>
    ensures { result ≡ option_map (λ e. e.0) (slice_get others.now.entries number) }
{
    match others.get_index(number) {
        None => None,
        Some((oid, _)) => Some(*oid),
    }
}

/// Puts the objects of a table behind these. The one error is want of memory.
pub(crate) fn list_keys(
    oids: &mut Vec<Oid>,
    others: &IndexMap<Oid, Places>,
) -> Result<(), AllocError>
    ensures listed { OnOk result (AreListed oids.new.items others.now.entries) }
    ensures kept { OnOk result (AreAmong oids.old.items oids.new.items) }
{
    'each: for number in 0..others.len() {
        let Some(oid) = key_at(others, number) else {
            return Err(AllocError);
        };
        oids.push(oid)?;
    }
    Ok(())
}

/// These objects in rising order, each once. The one error is want of memory.
pub(crate) fn in_order(oids: Vec<Oid>) -> Result<Vec<Oid>, AllocError>
    ensures rising { IfOk result (λ r. IsStrictlyIncreasing r.items) }
    ensures kept { IfOk result (λ r. AreAmong oids.items r.items) }
{
    let mut oids = oids;
    oids.sort()?;
    oids.dedup();
    Ok(oids)
}

/// Puts the records of an object, which stand at these places, behind others. The one error is want of
/// memory.
pub(crate) fn push_all(
    records: &mut Vec<Placed>,
    oid: Oid,
    places: &[Place],
) -> Result<(), AllocError>
    ensures { OnOk result
        (records.new.items ≡ records.old.items ++ map (placed oid) places.now) }
{
    'each: for place in places {
        records.push(Placed { oid, place: *place })?;
    }
    Ok(())
}
