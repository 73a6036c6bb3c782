//! The history of an object.

ghost use Rattle.std.specs.Prelude.{◌≡◌, ℕ, ◌<◌, ◌^◌, if◌then◌else◌, Some, None, List, length, map, reverse, IfOk};
ghost use Rattle.std.specs.List.{AllByRecursion};
ghost use Rattle.zb_model.specs.Lists.{history_of};
ghost use Rattle.fs_records.specs.Blocks.{Reached, Begins, Known};
ghost use Rattle.fs_records.specs.Indexed.{place_of, places_of};
ghost use Rattle.fs_reading.specs.Main.{ArePlaces};
ghost use Rattle.fs_reading.specs.Standing.{RecordStands, is_replaced, lasts, revision_line_of};
ghost use Rattle.fs_reading.specs.Sources.{is_same_transaction};
ghost use Rattle.fs_reading.specs.Sizes.{noted_of};
ghost use Rattle.zb_volume.specs.Disk.{main_bytes};
ghost use Rattle.fs_reading.specs.Reads.{OnlyReadsMain};

use crate::errors::ReadError;
use crate::noted::Noted;
use crate::pieces::{header_at, keep, user_and_description};
use crate::sizes::note_all;
use fs_index::Place;
use std::alloc::Global;
use zb_ids::{ListOf, Oid, Tid};
use zb_model::Revision;
use zb_volume::Volume;

/// The line of a data record of this transaction, of which this was noted.
fn line_of<V: Volume>(
    alloc: Global,
    volume: &mut V,
    serial: Tid,
    noted: Noted,
) -> Result<Revision, ReadError>
    requires short { V.told → length (main_bytes (V.state volume.old).log) < 2 ^ 64 }
    requires stands { V.told → (k : Known) × RecordStands (main_bytes (V.state volume.old).log) k
        × (noted ≡ noted_of (main_bytes (V.state volume.old).log) k) }
    ensures value { V.told → (k : Known) → serial ≡ k.tid
        → RecordStands (main_bytes (V.state volume.old).log) k
        → noted ≡ noted_of (main_bytes (V.state volume.old).log) k
        → IfOk result (λ line. line ≡ revision_line_of (main_bytes (V.state volume.old).log) k) }
    ensures read { OnlyReadsMain (V.state volume.old) (V.state volume.new) result }
{
    let header = header_at(volume, noted.transaction)?;
    let (user, description) = user_and_description(alloc, volume, noted.transaction, &header)?;
    Ok(Revision {
        tid: serial,
        size: noted.size,
        user,
        description,
    })
}

/// Whether the first of these places is of this transaction.
fn is_replaced(serial: Tid, later: &[Place]) -> bool
    ensures { result ≡ is_same_transaction serial later.now }
{
    match later.first() {
        Some(next) => serial == next.serial,
        None => false,
    }
}

/// The line of a data record of this transaction, if none of the places behind it is of the same
/// one.
fn line_of_last<V: Volume>(
    alloc: Global,
    volume: &mut V,
    serial: Tid,
    noted: Noted,
    later: &[Place],
) -> Result<Option<Revision>, ReadError>
    requires short { V.told → length (main_bytes (V.state volume.old).log) < 2 ^ 64 }
    requires stands { V.told → (k : Known) × RecordStands (main_bytes (V.state volume.old).log) k
        × (noted ≡ noted_of (main_bytes (V.state volume.old).log) k) }
    ensures value { V.told → (k : Known) (ks : List Known) → serial ≡ k.tid
        → later.now ≡ map place_of ks → RecordStands (main_bytes (V.state volume.old).log) k
        → noted ≡ noted_of (main_bytes (V.state volume.old).log) k
        → IfOk result (λ line. line
        ≡ (if is_replaced k ks then None else Some
        (revision_line_of (main_bytes (V.state volume.old).log) k))) }
    ensures read { OnlyReadsMain (V.state volume.old) (V.state volume.new) result }
{
    if is_replaced(serial, later) {
        return Ok(None);
    }
    let line = line_of(alloc, volume, serial, noted)?;
    Ok(Some(line))
}

/// The lines of the data records of an object at these places, of which this was noted, the last one
/// first, one for each transaction, which is that of its last record.
fn lines_of<V: Volume>(
    alloc: Global,
    volume: &mut V,
    places: &[Place],
    noted: &[Noted],
) -> Result<ListOf<Revision>, ReadError>
    requires long { length noted.now ≡ length places.now }
    requires short { V.told → length (main_bytes (V.state volume.old).log) < 2 ^ 64 }
    requires stand { V.told → (ks : List Known) × (places.now ≡ map place_of ks)
        × AllByRecursion (RecordStands (main_bytes (V.state volume.old).log)) ks
        × (noted.now ≡ map (noted_of (main_bytes (V.state volume.old).log)) ks) }
    ensures lines { V.told → (ks : List Known) → places.now ≡ map place_of ks
        → AllByRecursion (RecordStands (main_bytes (V.state volume.old).log)) ks
        → noted.now ≡ map (noted_of (main_bytes (V.state volume.old).log)) ks
        → IfOk result (λ lines.
        lines ≡ reverse (map (revision_line_of (main_bytes (V.state volume.old).log)) (lasts ks))) }
    ensures read { OnlyReadsMain (V.state volume.old) (V.state volume.new) result }
{
    let mut lines = ListOf::new(alloc);
    let mut left = places.len();
    while left > 0 {
        let later = &places[left..];
        left -= 1;
        let line = line_of_last(alloc, volume, places[left].serial, noted[left], later)?;
        keep(&mut lines, line)?;
    }
    Ok(lines)
}

/// Every change of an object, the newest first, by the places of its data records in what was read
/// of the file, in the order in which they stand: the tid, the user and the description of its
/// transaction, and how many bytes the object has from then on, or `None` where it is gone. Where
/// one transaction has several records of the object, its change is that of the last one. It reads
/// headers, back pointers and texts alone, each record once, never the object's bytes, and nothing
/// that stands behind what was read; memory is that of the list, and a few numbers for each record. It
/// is `ReadFault` only where a read failed, and else `Memory`. The volume is as it was.
pub fn read_history_at<V: Volume>(
    alloc: Global,
    volume: &mut V,
    places: &[Place],
) -> Result<ListOf<Revision>, ReadError>
    requires { V.told → ArePlaces (main_bytes (V.state volume.old).log) places.now }
    ensures lines { V.told → (reached : Reached) (oid : ℕ)
        → Begins (main_bytes (V.state volume.old).log) reached → places.now
        ≡ places_of oid reached.known
        → IfOk result (λ lines. lines ≡ history_of oid reached.list) }
    ensures read { OnlyReadsMain (V.state volume.old) (V.state volume.new) result }
{
    let noted = note_all(alloc, volume, places)?;
    let lines = lines_of(alloc, volume, places, &noted)?;
    Ok(lines)
}
