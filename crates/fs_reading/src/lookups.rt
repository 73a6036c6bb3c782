//! Look-ups of an object and of a transaction by the places where they stand.

ghost use Rattle.std.specs.Prelude.{◌≡◌, ℕ, ◌≤◌, List, length, IfOk, IfSome};
ghost use Rattle.std.specs.Option.{option_map};
ghost use Rattle.zb_model.specs.Queries.{first_after, first_tid_after, found_as, found_below, transaction_at};
ghost use Rattle.fs_records.specs.Blocks.{Reached, Begins};
ghost use Rattle.fs_index.specs.Places.{IsRising};
ghost use Rattle.fs_records.specs.Indexed.{places_of};
ghost use Rattle.fs_index.specs.Found.{first_from};
ghost use Rattle.fs_reading.specs.Known.{AreSourcesOf};
ghost use Rattle.fs_reading.specs.Main.{ArePlaces, AreStarts};
ghost use Rattle.fs_reading.specs.Outlines.{AllStandWithin, outlined_transaction};
ghost use Rattle.zb_volume.specs.Disk.{main_bytes};
ghost use Rattle.fs_reading.specs.Reads.{OnlyReadsMain};

use crate::contents::read_content_before;
use crate::errors::ReadError;
use crate::known::KnownSources;
use crate::outline::Outline;
use crate::outlining::read_outline_at;
use crate::transaction::read_transaction_at;
use fs_index::{Place, first_from, last_before};
use std::alloc::Global;
use zb_ids::Tid;
use zb_model::{Content, Found, Transaction};
use zb_volume::Volume;

/// The serial of the first place that isn't below the front.
fn serial_from(places: &[Place], front: Tid) -> Option<Tid>
    requires { IsRising places.now }
    ensures { result ≡ option_map (λ p. p.serial) (first_from front places.now) }
{
    first_from(places, front).map(|next| next.serial)
}

/// What is found where the last revision has this content and this serial, and `end` is the serial
/// of the next one.
fn found_with(content: Content, serial: Tid, end: Option<Tid>) -> Found
    ensures { result ≡ found_as content serial end }
{
    match content {
        Content::Held(bytes) => Found::Held { serial, bytes, end },
        Content::Absent => Found::Absent { serial },
    }
}

/// An object's last revision below a front, with the serial of its next one, by the places of the
/// object's records in what was read of the file, in the order in which they stand. It reads one
/// content, and nothing that stands behind `end`, at which Main has its end or goes on; a record of
/// at most 4,096 bytes takes one read of the volume. Where the content is that of an earlier record, back
/// pointers are followed up to a record that is known, and where it stands is known from then on.
/// Memory is that of the content and of what is known. It is `ReadFault` only where a read failed, and
/// else `Memory`. The volume is as it was.
pub fn read_before<V: Volume>(
    alloc: Global,
    volume: &mut V,
    known: &mut KnownSources,
    places: &[Place],
    end: u64,
    front: Tid,
) -> Result<Found, ReadError>
    requires places { V.told → ArePlaces (main_bytes (V.state volume.old).log) places.now }
    requires rising { IsRising places.now }
    requires end { V.told → end ≤ length (main_bytes (V.state volume.old).log) }
    requires known { V.told → AreSourcesOf (main_bytes (V.state volume.old).log) known.old }
    ensures found { V.told → (reached : Reached) (oid : ℕ)
        → Begins (main_bytes (V.state volume.old).log) reached → places.now
        ≡ places_of oid reached.known
        → IfOk result (λ found. found ≡ found_below oid front reached.list) }
    ensures known { V.told → AreSourcesOf (main_bytes (V.state volume.new).log) known.new }
    ensures read { OnlyReadsMain (V.state volume.old) (V.state volume.new) result }
{
    let Some(place) = last_before(places, front) else {
        return Ok(Found::Nothing);
    };
    let content = read_content_before(alloc, volume, known, place.at, end)?;
    let end = serial_from(places, front);
    Ok(found_with(content, place.serial, end))
}

/// The transaction with this tid, whole, or `None` where there is none, by the places of the
/// transactions in what was read of the file, in the order in which they stand. It reads nothing but
/// that transaction and the contents that it leads to, and nothing where there is none. Back pointers
/// are followed up to a record that is known, and where its contents stand is known from then on.
/// Memory is that of the transaction and of what is known. It is `ReadFault` only where a read failed,
/// and else `Memory`. The volume is as it was.
pub fn read_transaction_with<V: Volume>(
    alloc: Global,
    volume: &mut V,
    known: &mut KnownSources,
    starts: &[Place],
    tid: Tid,
) -> Result<Option<Transaction>, ReadError>
    requires starts { V.told → AreStarts (main_bytes (V.state volume.old).log) starts.now }
    requires rising { IsRising starts.now }
    requires known { V.told → AreSourcesOf (main_bytes (V.state volume.old).log) known.old }
    ensures found { V.told → (reached : Reached)
        → Begins (main_bytes (V.state volume.old).log) reached
        → starts.now ≡ reached.starts
        → IfOk result (λ found. found ≡ transaction_at tid reached.list) }
    ensures known { V.told → AreSourcesOf (main_bytes (V.state volume.new).log) known.new }
    ensures read { OnlyReadsMain (V.state volume.old) (V.state volume.new) result }
{
    let Some(start) = first_from(starts, tid) else {
        return Ok(None);
    };
    if start.serial != tid {
        return Ok(None);
    }
    Ok(Some(read_transaction_at(alloc, volume, known, start)?))
}

/// The first transaction above this tid, whole, or `None` where there is none, by the places of the
/// transactions in what was read of the file, in the order in which they stand. It reads nothing but
/// that transaction and the contents that it leads to, and nothing where there is none; memory is
/// that of the transaction. It is `ReadFault` only where a read failed, and else `Memory`. The volume
/// is as it was.
pub fn read_first_after<V: Volume>(
    alloc: Global,
    volume: &mut V,
    starts: &[Place],
    tid: Tid,
) -> Result<Option<Transaction>, ReadError>
    requires starts { V.told → AreStarts (main_bytes (V.state volume.old).log) starts.now }
    requires rising { IsRising starts.now }
    ensures found { V.told → (reached : Reached)
        → Begins (main_bytes (V.state volume.old).log) reached
        → starts.now ≡ reached.starts
        → IfOk result (λ found. found ≡ first_after tid reached.list) }
    ensures read { OnlyReadsMain (V.state volume.old) (V.state volume.new) result }
{
    let Some(next) = tid.0.checked_add(1) else {
        return Ok(None);
    };
    let Some(start) = first_from(starts, Tid(next)) else {
        return Ok(None);
    };
    let mut none = KnownSources::new(alloc);
    Ok(Some(read_transaction_at(alloc, volume, &mut none, start)?))
}

/// The outline of the transaction with this tid, or `None` where there is none, by the places of the
/// transactions in what was read of the file, in the order in which they stand. No byte of a content
/// is read; memory is that of the outline. It is `ReadFault` only where a read failed, and else
/// `Memory`. The volume is as it was.
pub fn read_outline_with<V: Volume>(
    alloc: Global,
    volume: &mut V,
    starts: &[Place],
    tid: Tid,
) -> Result<Option<Outline>, ReadError>
    requires starts { V.told → AreStarts (main_bytes (V.state volume.old).log) starts.now }
    requires rising { IsRising starts.now }
    ensures found { V.told → (reached : Reached)
        → Begins (main_bytes (V.state volume.old).log) reached
        → starts.now ≡ reached.starts
        → IfOk result (λ found.
        option_map (outlined_transaction (main_bytes (V.state volume.old).log)) found
        ≡ transaction_at tid reached.list) }
    ensures within { V.told → IfOk result (λ found. IfSome found (λ outline.
        AllStandWithin (main_bytes (V.state volume.old).log) outline.changes)) }
    ensures read { OnlyReadsMain (V.state volume.old) (V.state volume.new) result }
{
    let Some(start) = first_from(starts, tid) else {
        return Ok(None);
    };
    if start.serial != tid {
        return Ok(None);
    }
    Ok(Some(read_outline_at(alloc, volume, start)?))
}

/// The tid of the first transaction above this one, or `None` where there is none, by the places of the
/// transactions in what was read of a file, in the order in which they stand.
pub fn first_tid_after(starts: &[Place], tid: Tid) -> Option<Tid>
    requires { IsRising starts.now }
    ensures { (bytes : List ℕ) (reached : Reached) → Begins bytes reached
        → starts.now ≡ reached.starts → result ≡ first_tid_after tid reached.list }
{
    let Some(next) = tid.0.checked_add(1) else {
        return None;
    };
    serial_from(starts, Tid(next))
}
