//! How many bytes an object has by each of its data records.

ghost use Rattle.std.specs.Prelude.{◌≡◌, ℕ, ◌<◌, ◌^◌, List, length, map, vec_len, IfOk, IfSome};
ghost use Rattle.std.specs.List.{AllByRecursion};
ghost use Rattle.zb_model.specs.declared.data.Content.{Content};
ghost use Rattle.zb_model.specs.Lists.{size_of};
ghost use Rattle.fs_records.specs.Blocks.{Known};
ghost use Rattle.fs_records.specs.Indexed.{place_of};
ghost use Rattle.fs_reading.specs.Sizes.{noted_of, IsNotedAt};
ghost use Rattle.fs_reading.specs.Standing.{data_head_at, IsContent, RecordStands};
ghost use Rattle.fs_reading.specs.Sources.{HasContent};
ghost use Rattle.zb_volume.specs.Disk.{main_bytes};
ghost use Rattle.zb_volume.specs.States.{OnlyReads};
ghost use Rattle.fs_reading.specs.Reads.{OnlyReadsMain};

use crate::contents::source_of;
use crate::errors::ReadError;
use crate::known::KnownSources;
use crate::noted::Noted;
use crate::pieces::{back_pointer_at, data_header_at};
use fs_index::Place;
use fs_records::DataHeader;
use std::alloc::Global;
use zb_volume::{StoreFault, Volume};

/// What was noted of the data record at a place, or `None` where it isn't among these places.
fn noted_at(places: &[Place], noted: &[Noted], at: u64) -> Option<Noted>
    ensures { (bytes : List ℕ) (ks : List Known) → places.now ≡ map place_of ks
        → noted.now ≡ map (noted_of bytes) ks → AllByRecursion (RecordStands bytes) ks
        → IfSome result (IsNotedAt bytes at) }
{
    let n = places.partition_point(|place| place.at < at);
    if n >= places.len() {
        return None;
    }
    if n >= noted.len() {
        return None;
    }
    if places[n].at != at {
        return None;
    }
    Some(noted[n])
}

/// How many bytes the object has by the data record with this header at a place, or `None` where it is
/// gone: as its header says, or as was noted of the earlier record that its back pointer leads to. The
/// places are those of the object's earlier records.
fn size_at<V: Volume>(
    alloc: Global,
    volume: &mut V,
    at: u64,
    header: &DataHeader,
    places: &[Place],
    noted: &[Noted],
) -> Result<Option<u64>, StoreFault>
    requires short { V.told → length (main_bytes (V.state volume.old).log) < 2 ^ 64 }
    requires header { V.told → header.now ≡ data_head_at (main_bytes (V.state volume.old).log) at }
    requires some { V.told → HasContent (main_bytes (V.state volume.old).log) at }
    ensures value { V.told → (content : Content) (ks : List Known)
        → IsContent (main_bytes (V.state volume.old).log) content at → places.now ≡ map place_of ks
        → noted.now ≡ map (noted_of (main_bytes (V.state volume.old).log)) ks
        → AllByRecursion (RecordStands (main_bytes (V.state volume.old).log)) ks
        → IfOk result (λ size. size ≡ size_of content) }
    ensures read { OnlyReads (V.state volume.old) (V.state volume.new) result }
{
    if header.length != 0 {
        return Ok(Some(header.length));
    }
    let back = back_pointer_at(volume, at)?;
    if back == 0 {
        return Ok(None);
    }
    let Some(earlier) = noted_at(places, noted, back) else {
        let mut none = KnownSources::new(alloc);
        let source = source_of(volume, &mut none, at, header)?;
        return Ok(source.map(|source| source.length));
    };
    Ok(earlier.size)
}

/// What is noted of each data record of an object at these places, the first one first. Each record
/// is read once.
pub(crate) fn note_all<V: Volume>(
    alloc: Global,
    volume: &mut V,
    places: &[Place],
) -> Result<Vec<Noted>, ReadError>
    requires short { V.told → length (main_bytes (V.state volume.old).log) < 2 ^ 64 }
    requires stand { V.told → (ks : List Known) × (places.now ≡ map place_of ks)
        × AllByRecursion (RecordStands (main_bytes (V.state volume.old).log)) ks }
    ensures noted { V.told → (ks : List Known) → places.now ≡ map place_of ks
        → AllByRecursion (RecordStands (main_bytes (V.state volume.old).log)) ks
        → IfOk result (λ noted. noted.items
        ≡ map (noted_of (main_bytes (V.state volume.old).log)) ks) }
    ensures long { IfOk result (λ noted. vec_len noted ≡ length places.now) }
    ensures read { OnlyReadsMain (V.state volume.old) (V.state volume.new) result }
{
    let mut noted = Vec::new(alloc);
    'note: for (count, place) in places.iter().enumerate() {
        let header = data_header_at(volume, place.at)?;
        let size = size_at(alloc, volume, place.at, &header, &places[..count], &noted)?;
        noted.push(Noted {
            size,
            transaction: header.transaction,
        })?;
    }
    Ok(noted)
}
