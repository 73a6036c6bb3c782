//! An index file is written.

ghost use Rattle.std.specs.Prelude.{◌≡◌, ◌⊎◌, ◌<◌, ◌^◌, ◌∷◌, ◌++◌, [], None, Some, false, length, slice_get, IfOk, OnOk};
ghost use Rattle.std.specs.List.{AllByRecursion, flat_map};
ghost use Rattle.std.specs.Option.{option_map_or};
ghost use Rattle.zb_volume.specs.declared.areas.Area.{Area};
ghost use Rattle.zb_volume.specs.Disk.{seen, IsSettled};
ghost use Rattle.zb_volume.specs.Moments.{LeavesOnly};
ghost use Rattle.zb_volume.specs.States.{OnlyWrites, OthersStay};
ghost use Rattle.fs_records.specs.Numbers.{number};
ghost use Rattle.fs_index_file.specs.Hints.{IsSmallRecord, IsSmallStart, record_text, start_text};
ghost use Rattle.fs_index_file.specs.Honest.{IsHintOf, starts_for, status_of};
ghost use Rattle.fs_index_file.specs.Writes.{IsOldOr, IsOldOrHint, IsRestOf, WritesFor};

use crate::closing::shut;
use crate::entries::OPEN;
use fs_index::{Index, Place, Placed};
use fs_records::{COMMITTED, PACKED};
use fs_recovery::Numbers;
use std::alloc::{AllocError, Global};
use zb_model::StoreError;
use zb_volume::{Area, StoreFault, Volume, write_and_sync};

/// Puts a number behind a text, in 8 bytes, the highest first.
#[tactic(auto, unfolding(fs_records::specs::Numbers::number))]
fn put_number(text: &mut Vec<u8>, value: u64) -> Result<(), AllocError>
    ensures text { OnOk result (text.new.items ≡ text.old.items ++ number 8 value) }
    ensures small { value < 2 ^ 64 }
{
    text.extend_from_slice(&value.to_be_bytes())?;
    Ok(())
}

/// The status of a transaction, by whether a pack has gone over it.
fn status_by(packed: bool) -> u8
    ensures { result ≡ status_of packed }
{
    if packed { PACKED } else { COMMITTED }
}

/// Puts the entry of a transaction behind a text.
#[tactic(auto, unfolding(crate::specs::Hints::start_text))]
fn put_start(text: &mut Vec<u8>, place: &Place, packed: bool) -> Result<(), AllocError>
    ensures text { OnOk result (text.new.items ≡ text.old.items
        ++ start_text (record { place = place.now; status = status_of packed })) }
    ensures small { OnOk result
        (IsSmallStart (record { place = place.now; status = status_of packed })) }
{
    put_number(text, place.serial.0)?;
    put_number(text, place.at)?;
    text.push(status_by(packed))?;
    Ok(())
}

/// Whether a pack has gone over the transaction of a tally; over none where there is no tally.
fn is_packed_at(numbers: &Numbers, number: usize) -> bool
    ensures { result ≡ option_map_or (λ x. x.packed) (slice_get numbers.now.tallies number) false }
{
    match numbers.tally(number) {
        Some(tally) => tally.packed,
        None => false,
    }
}

/// Puts the entries of transactions behind a text.
fn put_starts(text: &mut Vec<u8>, places: &[Place], numbers: &Numbers) -> Result<(), AllocError>
    ensures text { OnOk result (text.new.items ≡ text.old.items
        ++ flat_map start_text (starts_for places.now numbers.now.tallies)) }
    ensures small { OnOk result
        (AllByRecursion IsSmallStart (starts_for places.now numbers.now.tallies)) }
{
    let mut number = 0;
    'each: for place in places {
        put_start(text, place, is_packed_at(numbers, number))?;
        number += 1;
    }
    Ok(())
}

/// Puts the entry of a data record behind a text.
#[tactic(auto, unfolding(crate::specs::Hints::record_text))]
fn put_record(text: &mut Vec<u8>, entry: &Placed) -> Result<(), AllocError>
    ensures text { OnOk result (text.new.items ≡ text.old.items ++ record_text entry.now) }
    ensures small { OnOk result (IsSmallRecord entry.now) }
{
    put_number(text, entry.oid.0)?;
    put_number(text, entry.place.serial.0)?;
    put_number(text, entry.place.at)?;
    Ok(())
}

/// Puts the entries of data records behind a text.
fn put_records(text: &mut Vec<u8>, records: &[Placed]) -> Result<(), AllocError>
    ensures text { OnOk result (text.new.items ≡ text.old.items
        ++ flat_map record_text records.now) }
    ensures small { OnOk result (AllByRecursion IsSmallRecord records.now) }
{
    'each: for entry in records {
        put_record(text, entry)?;
    }
    Ok(())
}

/// All but the gate of the index file of an index and these numbers, up to an end.
fn rest_of(alloc: Global, index: &Index, numbers: &Numbers, end: u64) -> Result<Vec<u8>, AllocError>
    ensures { IfOk result (λ text. IsRestOf index.now numbers.now.tallies end text.items) }
{
    let records = index.records(alloc)?;
    let entries = records.as_slice();
    let starts = index.transactions();
    let mut text = Vec::new(alloc);
    put_number(&mut text, end)?;
    put_number(&mut text, starts.len() as u64)?;
    put_number(&mut text, entries.len() as u64)?;
    put_starts(&mut text, starts, numbers)?;
    put_records(&mut text, entries)?;
    Ok(text)
}

/// Puts the rest of an index file behind a closed gate, syncs it, and opens the gate.
fn put_file<V: Volume>(volume: &mut V, rest: &[u8]) -> Result<(), StoreFault>
    ensures content { V.told → OnOk result
        (seen (V.state volume.new).log Area.Hint ≡ 1 ∷ rest.now) }
    ensures settled { V.told → OnOk result (IsSettled (V.state volume.new).log Area.Hint) }
    ensures any_moment { V.told → IsSettled (V.state volume.old).log Area.Hint
        → LeavesOnly Area.Hint
        (IsOldOr (seen (V.state volume.old).log Area.Hint) (1 ∷ rest.now))
        (V.state volume.old).log (V.state volume.new).log }
    ensures others { V.told → OthersStay Area.Hint (V.state volume.old).log
        (V.state volume.new).log }
    ensures write { OnlyWrites (V.state volume.old) (V.state volume.new) result }
{
    shut(volume)?;
    volume.cut(Area::Hint, 1)?;
    write_and_sync(volume, Area::Hint, 1, rest)?;
    write_and_sync(volume, Area::Hint, 0, &[OPEN])?;
    Ok(())
}

/// Writes the index file of an index and the numbers of the same list, up to an end: the gate is closed
/// and synced, the file is cut to it, the rest is written and synced, and the gate is opened and synced.
/// So a crash at any moment leaves what stood there, a closed file, or the whole of the new one.
///
/// Want of memory is answered before anything is written, and `StoreFault` where a write, the cut or a
/// sync fails.
pub fn write_hint<V: Volume>(
    alloc: Global,
    volume: &mut V,
    index: &Index,
    numbers: &Numbers,
    end: u64,
) -> Result<(), StoreError>
    ensures content { V.told → OnOk result (IsHintOf index.now numbers.now.tallies end
        (seen (V.state volume.new).log Area.Hint)) }
    ensures settled { V.told → OnOk result (IsSettled (V.state volume.new).log Area.Hint) }
    ensures any_moment { V.told → IsSettled (V.state volume.old).log Area.Hint
        → LeavesOnly Area.Hint (IsOldOrHint (seen (V.state volume.old).log Area.Hint)
        index.now numbers.now.tallies end)
        (V.state volume.old).log (V.state volume.new).log }
    ensures others { V.told → OthersStay Area.Hint (V.state volume.old).log
        (V.state volume.new).log }
    ensures causes { WritesFor (V.state volume.old) (V.state volume.new) result }
{
    let Ok(rest) = rest_of(alloc, index, numbers, end) else {
        return Err(StoreError::Memory);
    };
    match put_file(volume, rest.as_slice()) {
        Ok(()) => Ok(()),
        Err(StoreFault) => Err(StoreError::StoreFault),
    }
}
