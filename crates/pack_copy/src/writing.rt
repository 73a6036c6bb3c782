//! The text of an outlined transaction is put behind Side.

ghost use Rattle.std.specs.Prelude.{◌≡◌, ◌+◌, ◌<◌, ◌^◌, ◌++◌, ◌-◌, length, map, if◌then◌else◌, OnOk};
ghost use Rattle.std.specs.List.{AllByRecursion, last_or};
ghost use Rattle.zb_volume.specs.declared.areas.Area.TheVariants.{Side};
ghost use Rattle.zb_volume.specs.Disk.{main_bytes};
ghost use Rattle.zb_volume.specs.States.{OthersStay};
ghost use Rattle.fs_records.specs.Blocks.{block_text, payload_text, record_text, records_text};
ghost use Rattle.fs_records.specs.HeaderLaws.{IsDataHeader};
ghost use Rattle.fs_records.specs.Headers.{header_text};
ghost use Rattle.fs_records.specs.Numbers.{number};
ghost use Rattle.fs_records.specs.Writing.{HasRoom, at_or_0};
ghost use Rattle.fs_reading.specs.Outlines.{AllStandWithin, IsOutline, StandsWithin, outlined_content};
ghost use Rattle.pack_copy.specs.Appending.{IsAppended, IsAtEnd};
ghost use Rattle.pack_copy.specs.Counting.{IsCopyCounted};
ghost use Rattle.pack_copy.specs.Outlined.{block_in, end_in, record_in, records_begin, source_length};
ghost use Rattle.pack_copy.specs.InFull.{full_payload};

use crate::buffer::Buffer;
use fs_index::{Index, Place};
use fs_reading::{Outline, OutlinedChange, Source};
use fs_records::{
    COMMITTED, DATA_HEADER_LENGTH, DataHeader, Header, PACKED, write_data_header, write_header,
};
use zb_ids::Tid;
use zb_model::StoreError;
use zb_volume::Volume;

/// The status of a transaction in a file.
fn status_of(packed: bool) -> u8
    ensures { result ≡ if packed then 112 else 32 }
{
    if packed { PACKED } else { COMMITTED }
}

/// Where the last of these places is, or 0 where there is none.
#[tactic(auto, using(zb_base::specs::Lists::last_or_get))]
fn newest(places: &[Place]) -> u64
    ensures { result ≡ at_or_0 (last_or None places.now) }
{
    match places.last() {
        None => 0,
        Some(place) => place.at,
    }
}

/// A number in 8 bytes, the highest first.
#[tactic(auto, unfolding(fs_records::specs::Numbers::number))]
fn number_bytes(value: u64) -> [u8; 8]
    ensures { result ≡ number 8 value }
{
    value.to_be_bytes()
}

/// A data record's numbers fit into their fields.
fn is_data_header(header: DataHeader)
    ensures { IsDataHeader header }
{}

/// The length in the header of a content's data record, which is 0 before a back pointer.
fn length_of(source: Option<Source>) -> u64
    ensures { result ≡ source_length source }
{
    match source {
        Some(source) => source.length,
        None => 0,
    }
}

/// Puts a content in full into the buffer, and that an object isn't there as back pointer 0.
fn put_payload<V: Volume>(
    volume: &mut V,
    buffer: &mut Buffer,
    source: Option<Source>,
) -> Result<(), StoreError>
    requires end { V.told → IsAtEnd (V.state volume.old).log buffer.old }
    requires short { V.told → length (main_bytes (V.state volume.old).log) < 2 ^ 64 }
    requires within { V.told → StandsWithin (main_bytes (V.state volume.old).log) source }
    ensures appended { V.told
        → OnOk result (IsAppended (V.state volume.old).log buffer.old
        (V.state volume.new).log buffer.new
        (payload_text (full_payload
        (outlined_content (main_bytes (V.state volume.old).log) source)))) }
    ensures others { V.told → OthersStay Side (V.state volume.old).log (V.state volume.new).log }
    ensures counts { IsCopyCounted (V.state volume.old) (V.state volume.new) result }
{
    match source {
        Some(source) => {
            let from = source.at.saturating_add(DATA_HEADER_LENGTH as u64);
            buffer.put_main(volume, from, source.length)
        }
        None => buffer.put(volume, &number_bytes(0)),
    }
}

/// Puts the data record of a change into the buffer, for a transaction with this number at this place.
fn put_record<V: Volume>(
    volume: &mut V,
    buffer: &mut Buffer,
    places: &Index,
    tid: Tid,
    at: u64,
    change: &OutlinedChange,
) -> Result<(), StoreError>
    requires end { V.told → IsAtEnd (V.state volume.old).log buffer.old }
    requires short { V.told → length (main_bytes (V.state volume.old).log) < 2 ^ 64 }
    requires within { V.told
        → StandsWithin (main_bytes (V.state volume.old).log) change.now.source }
    ensures appended { V.told
        → OnOk result (IsAppended (V.state volume.old).log buffer.old
        (V.state volume.new).log buffer.new
        (record_text at tid
        (record_in places.now.entries (main_bytes (V.state volume.old).log) change.now))) }
    ensures room { V.told → OnOk result
        (HasRoom (record_in places.now.entries (main_bytes (V.state volume.old).log) change.now)) }
    ensures others { V.told → OthersStay Side (V.state volume.old).log (V.state volume.new).log }
    ensures counts { IsCopyCounted (V.state volume.old) (V.state volume.new) result }
{
    let header = DataHeader {
        oid: change.oid,
        tid,
        previous: newest(places.places(change.oid)),
        transaction: at,
        version: 0,
        length: length_of(change.source),
    };
    is_data_header(header);
    buffer.put(volume, &write_data_header(&header))?;
    put_payload(volume, buffer, change.source)
}

/// Puts the data records of some changes into the buffer, one behind another.
fn put_records<V: Volume>(
    volume: &mut V,
    buffer: &mut Buffer,
    places: &Index,
    tid: Tid,
    at: u64,
    changes: &[OutlinedChange],
) -> Result<(), StoreError>
    requires end { V.told → IsAtEnd (V.state volume.old).log buffer.old }
    requires short { V.told → length (main_bytes (V.state volume.old).log) < 2 ^ 64 }
    requires within { V.told → AllStandWithin (main_bytes (V.state volume.old).log) changes.now }
    ensures appended { V.told → OnOk result
        (IsAppended (V.state volume.old).log buffer.old (V.state volume.new).log buffer.new
        (records_text at tid
        (map (record_in places.now.entries (main_bytes (V.state volume.old).log)) changes.now))) }
    ensures room { V.told → OnOk result (AllByRecursion HasRoom
        (map (record_in places.now.entries (main_bytes (V.state volume.old).log)) changes.now)) }
    ensures others { V.told → OthersStay Side (V.state volume.old).log (V.state volume.new).log }
    ensures counts { IsCopyCounted (V.state volume.old) (V.state volume.new) result }
{
    'record: for change in changes {
        put_record(volume, buffer, places, tid, at, change)?;
    }
    Ok(())
}

/// Puts a header and the three texts of a transaction into the buffer.
fn put_head<V: Volume>(
    volume: &mut V,
    buffer: &mut Buffer,
    header: &Header,
    outline: &Outline,
) -> Result<(), StoreError>
    requires { V.told → IsAtEnd (V.state volume.old).log buffer.old }
    ensures appended { V.told → OnOk result
        (IsAppended (V.state volume.old).log buffer.old (V.state volume.new).log buffer.new
        (header_text header.now
        ++ (outline.now.user ++ (outline.now.description ++ outline.now.extension)))) }
    ensures others { V.told → OthersStay Side (V.state volume.old).log (V.state volume.new).log }
    ensures counts { IsCopyCounted (V.state volume.old) (V.state volume.new) result }
{
    buffer.put(volume, &write_header(header))?;
    buffer.put(volume, outline.user.as_slice())?;
    buffer.put(volume, outline.description.as_slice())?;
    buffer.put(volume, outline.extension.as_slice())
}

/// Puts the text of an outlined transaction behind Side and what is held, where it stands from `at` to
/// `end`, by the index of what stands there: its header, its texts, the data record of each change with
/// its content in full, and its length once more. The contents go from Main to Side through the buffer.
pub(crate) fn put_block<V: Volume>(
    volume: &mut V,
    buffer: &mut Buffer,
    places: &Index,
    at: u64,
    end: u64,
    outline: &Outline,
) -> Result<(), StoreError>
    requires outline { IsOutline outline.now }
    requires end { end ≡ end_in (records_begin at outline.now) outline.now.changes + 8 }
    requires side { V.told → IsAtEnd (V.state volume.old).log buffer.old }
    requires short { V.told → length (main_bytes (V.state volume.old).log) < 2 ^ 64 }
    requires within { V.told
        → AllStandWithin (main_bytes (V.state volume.old).log) outline.now.changes }
    ensures appended { V.told → OnOk result
        (IsAppended (V.state volume.old).log buffer.old (V.state volume.new).log buffer.new
        (block_text at (block_in places.now.entries
        (main_bytes (V.state volume.old).log) outline.now))) }
    ensures room { V.told
        → OnOk result (AllByRecursion HasRoom
        (map (record_in places.now.entries
        (main_bytes (V.state volume.old).log)) outline.now.changes)) }
    ensures others { V.told → OthersStay Side (V.state volume.old).log (V.state volume.new).log }
    ensures counts { IsCopyCounted (V.state volume.old) (V.state volume.new) result }
{
    let length = end - 8 - at;
    let header = Header {
        tid: outline.tid,
        length,
        status: status_of(outline.packed),
        user: outline.user.len() as u16,
        description: outline.description.len() as u16,
        extension: outline.extension.len() as u16,
    };
    put_head(volume, buffer, &header, outline)?;
    let changes = outline.changes.as_slice();
    put_records(volume, buffer, places, outline.tid, at, changes)?;
    buffer.put(volume, &number_bytes(length))
}
