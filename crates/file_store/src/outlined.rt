//! The transaction whose changes are asked for one after another.

ghost use Rattle.std.specs.Prelude.{◌≡◌, option_map, IfOk};
ghost use Rattle.std.specs.Option.{ForSome};
ghost use Rattle.zb_volume.specs.declared.areas.Area.TheVariants.{Main};
ghost use Rattle.zb_volume.specs.Disk.{seen};
ghost use Rattle.zb_model.specs.Queries.{transaction_at};
ghost use Rattle.fs_index.specs.Places.{IsRising};
ghost use Rattle.fs_records.specs.Listed.{listed};
ghost use Rattle.fs_reading.specs.Outlines.{outlined_transaction};
ghost use Rattle.fs_reading.specs.Reads.{OnlyReadsMain};
ghost use Rattle.file_store.specs.Outlined.{AreStartsOf, IsOutlinedIn, outlined_at};

use fs_index::Place;
use fs_reading::{Outline, OutlinedChange, ReadError, read_outline_with};
use std::alloc::Global;
use zb_ids::Tid;
use zb_volume::Volume;

/// The outline of the transaction with this tid, if there is one: the one that is known, or else one
/// that is read now. So the changes of a transaction are gone through with one pass over its records.
pub(crate) fn outline_of<V: Volume>(
    alloc: Global,
    volume: &mut V,
    starts: &[Place],
    known: Option<Outline>,
    tid: Tid,
) -> Result<Option<Outline>, ReadError>
    requires starts { V.told → AreStartsOf (seen (V.state volume.old).log Main) starts.now }
    requires rising { IsRising starts.now }
    requires known { V.told
        → ForSome known (λ o. IsOutlinedIn (seen (V.state volume.old).log Main) o) }
    ensures found { V.told → IfOk result (λ found.
        option_map (outlined_transaction (seen (V.state volume.old).log Main)) found
        ≡ transaction_at tid (listed (seen (V.state volume.old).log Main))) }
    ensures outlined { V.told → IfOk result (λ found.
        ForSome found (λ o. IsOutlinedIn (seen (V.state volume.old).log Main) o)) }
    ensures read { OnlyReadsMain (V.state volume.old) (V.state volume.new) result }
{
    match known {
        Some(outline) => {
            if outline.tid == tid {
                return Ok(Some(outline));
            }
        }
        None => {}
    }
    read_outline_with(alloc, volume, starts, tid)
}

/// The change at a place of an outline, if there is one.
pub(crate) fn change_in(outline: &Option<Outline>, number: u64) -> Option<OutlinedChange>
    ensures { result ≡ outlined_at number outline.now }
{
    let Some(outline) = outline else {
        return None;
    };
    outline.changes.as_slice().get(number as usize).copied()
}
