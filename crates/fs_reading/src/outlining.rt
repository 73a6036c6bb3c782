//! A transaction by the places of its contents.

ghost use Rattle.std.specs.Prelude.{◌≡◌, ℕ, ◌≤◌, ◌<◌, ◌^◌, [], List, Some, length, map, slice_get, IfOk};
ghost use Rattle.zb_model.specs.declared.data.Transaction.{Transaction};
ghost use Rattle.fs_records.specs.Blocks.{Reached, Begins, Known};
ghost use Rattle.fs_records.specs.Rules.{payload_size};
ghost use Rattle.fs_reading.specs.Known.{AreSourcesOf};
ghost use Rattle.fs_reading.specs.Main.{IsStart, IsStartOf};
ghost use Rattle.fs_reading.specs.ChangesStand.{HasTransaction, OfTransaction, RecordsBetween, entries_of};
ghost use Rattle.fs_reading.specs.Outlines.{AllStandWithin, IsOutline, outlined_transaction};
ghost use Rattle.fs_reading.specs.SourceEntries.{AreSources, EntriesWithin, entries_from, outlined_entry};
ghost use Rattle.zb_volume.specs.Disk.{main_bytes};
ghost use Rattle.fs_reading.specs.Reads.{OnlyReadsMain};

use crate::contents::source_of;
use crate::errors::ReadError;
use crate::known::KnownSources;
use crate::outline::{Outline, OutlinedChange, Source};
use crate::pieces::{bytes_at, data_header_at, header_at, user_and_description};
use fs_index::Place;
use fs_records::{DATA_HEADER_LENGTH, DataHeader, HEADER_LENGTH, PACKED};
use indexmap::IndexMap;
use std::alloc::{AllocError, Global};
use zb_ids::{ListOf, Oid};
use zb_volume::Volume;

/// How many bytes stand behind the header of a data record.
pub(crate) fn payload_size(header: &DataHeader) -> u64
    ensures { result ≡ payload_size header.now }
{
    if header.length == 0 { 8 } else { header.length }
}

/// The changes by these entries, in their order.
fn changes_by(
    alloc: Global,
    entries: IndexMap<Oid, Option<Source>>,
) -> Result<ListOf<OutlinedChange>, AllocError>
    ensures { IfOk result (λ changes. changes ≡ map outlined_entry entries.entries) }
{
    let changes: Vec<OutlinedChange> = entries
        .into_iter()
        .map(|(oid, source)| OutlinedChange { oid, source })
        .collect(alloc)?;
    Ok(ListOf::from_vec(changes))
}

/// Where the content stands that the data records between two places give each object, in the order
/// in which the objects come first.
fn sources_between<V: Volume>(
    alloc: Global,
    volume: &mut V,
    known: &mut KnownSources,
    from: u64,
    end: u64,
) -> Result<IndexMap<Oid, Option<Source>>, ReadError>
    requires short { V.told → length (main_bytes (V.state volume.old).log) < 2 ^ 64 }
    requires within { V.told → end ≤ length (main_bytes (V.state volume.old).log) }
    requires stand { V.told
        → (ks : List Known) × RecordsBetween (main_bytes (V.state volume.old).log) from end ks }
    requires known { V.told → AreSourcesOf (main_bytes (V.state volume.old).log) known.old }
    ensures value { V.told → (ks : List Known)
        → RecordsBetween (main_bytes (V.state volume.old).log) from end ks
        → IfOk result (λ entries.
        entries_from (main_bytes (V.state volume.old).log) entries.entries ≡ entries_of [] ks) }
    ensures within { V.told → IfOk result (λ entries.
        EntriesWithin (main_bytes (V.state volume.old).log) entries.entries) }
    ensures formed { IfOk result (λ entries. AreSources entries.entries) }
    ensures known { V.told → AreSourcesOf (main_bytes (V.state volume.new).log) known.new }
    ensures read { OnlyReadsMain (V.state volume.old) (V.state volume.new) result }
{
    let mut entries = IndexMap::new(alloc);
    let mut place = from;
    while place < end {
        let header = data_header_at(volume, place)?;
        let source = source_of(volume, known, place, &header)?;
        entries.insert(header.oid, source)?;
        place = place
            .saturating_add(DATA_HEADER_LENGTH as u64)
            .saturating_add(payload_size(&header));
    }
    Ok(entries)
}

/// The outline of the transaction at a place.
pub(crate) fn outline_at<V: Volume>(
    alloc: Global,
    volume: &mut V,
    known: &mut KnownSources,
    place: Place,
) -> Result<Outline, ReadError>
    requires short { V.told → length (main_bytes (V.state volume.old).log) < 2 ^ 64 }
    requires stands { V.told → HasTransaction (main_bytes (V.state volume.old).log) place }
    requires known { V.told → AreSourcesOf (main_bytes (V.state volume.old).log) known.old }
    ensures value { V.told → OfTransaction (main_bytes (V.state volume.old).log) place
        (λ t. IfOk result (λ outline.
        outlined_transaction (main_bytes (V.state volume.old).log) outline ≡ t)) }
    ensures within { V.told → IfOk result (λ outline.
        AllStandWithin (main_bytes (V.state volume.old).log) outline.changes) }
    ensures formed { IfOk result (λ outline. IsOutline outline) }
    ensures known { V.told → AreSourcesOf (main_bytes (V.state volume.new).log) known.new }
    ensures read { OnlyReadsMain (V.state volume.old) (V.state volume.new) result }
{
    let header = header_at(volume, place.at)?;
    let (user, description) = user_and_description(alloc, volume, place.at, &header)?;
    let behind = place
        .at
        .saturating_add(HEADER_LENGTH as u64)
        .saturating_add(header.user as u64)
        .saturating_add(header.description as u64);
    let extension = bytes_at(alloc, volume, behind, header.extension as usize)?;
    let from = behind.saturating_add(header.extension as u64);
    let end = place.at.saturating_add(header.length);
    let entries = sources_between(alloc, volume, known, from, end)?;
    let changes = changes_by(alloc, entries)?;
    Ok(Outline {
        tid: header.tid,
        packed: header.status == PACKED,
        user,
        description,
        extension,
        changes,
    })
}

/// The outline of the transaction at a place where one was read: its three texts, and where the
/// content of each of its changes stands, of which no byte is read. An object that it changes more
/// than once stands where it came first, with the content of its last record there. Whatever the
/// volume gives, its texts have at most 65,535 bytes each, it changes each object once, and no record
/// is empty. Memory is that of the outline. It is `ReadFault` only where a read failed, and else
/// `Memory`. The volume is as it was.
pub fn read_outline_at<V: Volume>(
    alloc: Global,
    volume: &mut V,
    place: Place,
) -> Result<Outline, ReadError>
    requires { V.told → IsStart (main_bytes (V.state volume.old).log) place }
    ensures transaction { V.told → (reached : Reached) (number : ℕ)
        → Begins (main_bytes (V.state volume.old).log) reached → IsStartOf reached number place
        → IfOk result (λ outline. slice_get reached.list number
        ≡ Some (outlined_transaction (main_bytes (V.state volume.old).log) outline)) }
    ensures within { V.told → IfOk result (λ outline.
        AllStandWithin (main_bytes (V.state volume.old).log) outline.changes) }
    ensures formed { IfOk result (λ outline. IsOutline outline) }
    ensures read { OnlyReadsMain (V.state volume.old) (V.state volume.new) result }
{
    let mut none = KnownSources::new(alloc);
    outline_at(alloc, volume, &mut none, place)
}
