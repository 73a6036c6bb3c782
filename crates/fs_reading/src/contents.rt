//! The content of a data record.

ghost use Rattle.std.specs.Prelude.{◌≡◌, ℕ, ◌≤◌, ◌<◌, ◌^◌, true, length, IfOk};
ghost use Rattle.fs_records.specs.Blocks.{Reached, Begins, is_known, content_at};
ghost use Rattle.zb_volume.specs.Disk.{main_bytes};
ghost use Rattle.fs_reading.specs.Standing.{data_head_at};
ghost use Rattle.fs_reading.specs.Formed.{HasBytes};
ghost use Rattle.fs_reading.specs.Known.{AreSourcesOf};
ghost use Rattle.fs_reading.specs.Sources.{HasContent, IsKnownPlace, IsSource, OfContent};
ghost use Rattle.fs_reading.specs.Outlines.{HasLength, StandsWithin, outlined_content};
ghost use Rattle.zb_volume.specs.States.{OnlyReads};
ghost use Rattle.fs_reading.specs.Reads.{OnlyReadsMain};

use crate::errors::ReadError;
use crate::front::{FRONT, content_in, fill_front, header_in};
use crate::known::KnownSources;
use crate::outline::Source;
use crate::pieces::{back_pointer_at, bytes_at, data_header_at};
use fs_records::{DATA_HEADER_LENGTH, DataHeader};
use std::alloc::Global;
use zb_model::Content;
use zb_volume::{StoreFault, Volume};

/// Where the content of the data record with this header at a place stands, or `None` where there
/// is none. A back pointer that doesn't lead to an earlier place is none. Back pointers are followed up
/// to a data record of which it is known.
fn follow<V: Volume>(
    volume: &mut V,
    known: &KnownSources,
    at: u64,
    header: &DataHeader,
) -> Result<Option<Source>, StoreFault>
    requires short { V.told → length (main_bytes (V.state volume.old).log) < 2 ^ 64 }
    requires header { V.told → header.now ≡ data_head_at (main_bytes (V.state volume.old).log) at }
    requires some { V.told → HasContent (main_bytes (V.state volume.old).log) at }
    requires known { V.told → AreSourcesOf (main_bytes (V.state volume.old).log) known.now }
    ensures value { V.told → OfContent (main_bytes (V.state volume.old).log) at (λ content.
        IfOk result (IsSource (main_bytes (V.state volume.old).log) content)) }
    ensures filled { IfOk result (λ source. HasLength source) }
    ensures read { OnlyReads (V.state volume.old) (V.state volume.new) result }
{
    let mut place = at;
    let mut length = header.length;
    while length == 0 {
        if let Some(found) = known.get(place) {
            return Ok(found.source);
        }
        let back = back_pointer_at(volume, place)?;
        if back == 0 {
            return Ok(None);
        }
        if back >= place {
            return Ok(None);
        }
        length = data_header_at(volume, back)?.length;
        place = back;
    }
    Ok(Some(Source { at: place, length }))
}

/// Where the content of the data record with this header at a place stands, or `None` where there
/// is none. A back pointer that doesn't lead to an earlier place is none. What is found by back
/// pointers is known from then on.
pub(crate) fn source_of<V: Volume>(
    volume: &mut V,
    known: &mut KnownSources,
    at: u64,
    header: &DataHeader,
) -> Result<Option<Source>, StoreFault>
    requires short { V.told → length (main_bytes (V.state volume.old).log) < 2 ^ 64 }
    requires header { V.told → header.now ≡ data_head_at (main_bytes (V.state volume.old).log) at }
    requires some { V.told → HasContent (main_bytes (V.state volume.old).log) at }
    requires known { V.told → AreSourcesOf (main_bytes (V.state volume.old).log) known.old }
    ensures value { V.told → OfContent (main_bytes (V.state volume.old).log) at (λ content.
        IfOk result (IsSource (main_bytes (V.state volume.old).log) content)) }
    ensures filled { IfOk result (λ source. HasLength source) }
    ensures known { V.told → AreSourcesOf (main_bytes (V.state volume.new).log) known.new }
    ensures read { OnlyReads (V.state volume.old) (V.state volume.new) result }
{
    let source = follow(volume, known, at, header)?;
    if header.length == 0 {
        known.enter(at, source);
    }
    Ok(source)
}

/// The content whose bytes stand there, or that the object isn't there.
pub(crate) fn content_from<V: Volume>(
    alloc: Global,
    volume: &mut V,
    source: Option<Source>,
) -> Result<Content, ReadError>
    requires short { V.told → length (main_bytes (V.state volume.old).log) < 2 ^ 64 }
    requires within { V.told → StandsWithin (main_bytes (V.state volume.old).log) source }
    ensures value { V.told → IfOk result (λ content.
        content ≡ outlined_content (main_bytes (V.state volume.old).log) source) }
    ensures filled { HasLength source → IfOk result (λ content. HasBytes content) }
    ensures read { OnlyReadsMain (V.state volume.old) (V.state volume.new) result }
{
    let Some(source) = source else {
        return Ok(Content::Absent);
    };
    let from = source.at.saturating_add(DATA_HEADER_LENGTH as u64);
    Ok(Content::Held(bytes_at(alloc, volume, from, source.length as usize)?))
}

/// The content of the data record with this header at a place.
pub(crate) fn content_of<V: Volume>(
    alloc: Global,
    volume: &mut V,
    known: &mut KnownSources,
    at: u64,
    header: &DataHeader,
) -> Result<Content, ReadError>
    requires short { V.told → length (main_bytes (V.state volume.old).log) < 2 ^ 64 }
    requires header { V.told → header.now ≡ data_head_at (main_bytes (V.state volume.old).log) at }
    requires some { V.told → HasContent (main_bytes (V.state volume.old).log) at }
    requires known { V.told → AreSourcesOf (main_bytes (V.state volume.old).log) known.old }
    ensures value { V.told → OfContent (main_bytes (V.state volume.old).log) at (λ content.
        IfOk result (λ read. read ≡ content)) }
    ensures filled { IfOk result (λ read. HasBytes read) }
    ensures known { V.told → AreSourcesOf (main_bytes (V.state volume.new).log) known.new }
    ensures read { OnlyReadsMain (V.state volume.old) (V.state volume.new) result }
{
    let source = source_of(volume, known, at, header)?;
    content_from(alloc, volume, source)
}

/// The content of the data record at a place where one of an object was read: its bytes, or those
/// of the earlier record that its back pointer leads to. It is `ReadFault` only where a read failed,
/// and else `Memory`. The volume is as it was.
fn read_content<V: Volume>(
    alloc: Global,
    volume: &mut V,
    known: &mut KnownSources,
    at: u64,
) -> Result<Content, ReadError>
    requires place { V.told → IsKnownPlace (main_bytes (V.state volume.old).log) at }
    requires known { V.told → AreSourcesOf (main_bytes (V.state volume.old).log) known.old }
    ensures content { V.told → (reached : Reached) (oid : ℕ)
        → Begins (main_bytes (V.state volume.old).log) reached → is_known reached.known oid at
        ≡ true
        → IfOk result (λ content. content ≡ content_at reached.known oid at) }
    ensures known { V.told → AreSourcesOf (main_bytes (V.state volume.new).log) known.new }
    ensures read { OnlyReadsMain (V.state volume.old) (V.state volume.new) result }
{
    let header = data_header_at(volume, at)?;
    content_of(alloc, volume, known, at, &header)
}

/// The content of the data record at a place, as `read_content` gives it, where the bytes of the file
/// up to `end` may be read. Where the record has at most 4,096 bytes before `end`, they are read at
/// once.
pub(crate) fn read_content_before<V: Volume>(
    alloc: Global,
    volume: &mut V,
    known: &mut KnownSources,
    at: u64,
    end: u64,
) -> Result<Content, ReadError>
    requires place { V.told → IsKnownPlace (main_bytes (V.state volume.old).log) at }
    requires end { V.told → end ≤ length (main_bytes (V.state volume.old).log) }
    requires known { V.told → AreSourcesOf (main_bytes (V.state volume.old).log) known.old }
    ensures content { V.told → (reached : Reached) (oid : ℕ)
        → Begins (main_bytes (V.state volume.old).log) reached → is_known reached.known oid at
        ≡ true
        → IfOk result (λ content. content ≡ content_at reached.known oid at) }
    ensures known { V.told → AreSourcesOf (main_bytes (V.state volume.new).log) known.new }
    ensures read { OnlyReadsMain (V.state volume.old) (V.state volume.new) result }
{
    let room = end.saturating_sub(at);
    if room < DATA_HEADER_LENGTH as u64 {
        return read_content(alloc, volume, known, at);
    }
    let mut front = [0; FRONT];
    let held = fill_front(volume, at, room, &mut front)?;
    let header = header_in(&front);
    if header.length > 0 && header.length <= (held - DATA_HEADER_LENGTH) as u64 {
        let content = content_in(alloc, &front, header.length as usize)?;
        return Ok(content);
    }
    content_of(alloc, volume, known, at, &header)
}
