//! A store is opened, and its file made where there is none.

ghost use Rattle.std.specs.Prelude.{◌≡◌, ◌≢◌, ◌⊎◌, ℕ, ◌<◌, ◌≤◌, ◌^◌, [], None, false, List, Option, length, take, IfErr, IfOk, OnOk};
ghost use Rattle.std.specs.List.{last_or};
ghost use Rattle.std.specs.Option.{option_map_or};
ghost use Rattle.zb_volume.specs.declared.areas.Area.TheVariants.{Main, Hint};
ghost use Rattle.zb_volume.specs.Disk.{seen, IsSettled};
ghost use Rattle.zb_volume.specs.Images.{CrashLeaves};
ghost use Rattle.zb_volume.specs.Moments.{LeavesOnly};
ghost use Rattle.zb_volume.specs.States.{OthersStay};
ghost use Rattle.zb_ids.specs.declared.stamp.Stamp.{Stamp};
ghost use Rattle.zb_base.specs.Bytes.{AreBytes};
ghost use Rattle.fs_recovery.specs.Opens.{IsBounded, IsWhole, OpensMain};
ghost use Rattle.fs_recovery.specs.Reading.{CountsFault, RefusesMain};
ghost use Rattle.fs_recovery.specs.declared.errors.OpenError.TheVariants.{StoreFault};
ghost use Rattle.fs_index_file.specs.Honest.{IsHonest};
ghost use Rattle.fs_index_file.specs.Writes.{IsClosed, IsOldOrClosed};
ghost use Rattle.file_store.specs.Hinting.{HasHonestHint, IsHinted, StaysHonest};
ghost use Rattle.file_store.specs.Kept.{IsKept};
ghost use Rattle.file_store.specs.Opening.{IsFirst};
ghost use Rattle.file_store.specs.Outcomes.{AsksClock, IsOpening};

use crate::first::{NewFile, first_file};
use crate::ready::Ready;
use crate::staging::StagedIndex;
use fs_append as append;
use fs_index::{Place, last_of};
use fs_index_file::{close_hint, read_hint};
use fs_recovery::{OpenError, Opened, open_main, read_on};
use std::alloc::Global;
use zb_ids::{Stamp, Tid};
use zb_outside::Clock;
use zb_volume::{Area, Volume};

/// The number of the last transaction, or 0.
fn newest_of(starts: &[Place]) -> Tid
    ensures { result ≡ option_map_or (λ p. p.serial) (last_or None starts.now) 0 }
{
    match last_of(starts) {
        Some(place) => place.serial,
        None => Tid(0),
    }
}

/// What is kept of a file that was opened.
pub(crate) fn keep(opened: Opened) -> Ready
    requires { IsBounded opened }
    ensures kept { (bytes : List ℕ) → IsWhole bytes opened → AreBytes bytes
        → length bytes ≤ opened.end → IsKept bytes result.index result.numbers }
    ensures free { result.index.staged ≡ None }
    ensures cut { result.cut ≡ opened.cut }
    ensures end { result.index.end ≡ opened.end }
{
    let Opened {
        index,
        numbers,
        end,
        cut,
    } = opened;
    let newest = newest_of(index.transactions());
    Ready {
        index: StagedIndex::new(index, newest, end),
        numbers,
        cut,
    }
}

/// Closes the index file, and puts a file in the place of Main: a `StoreFault` is answered where a call
/// of the volume fails, and nothing else.
fn install<V: Volume>(volume: &mut V, bytes: &[u8]) -> Result<(), OpenError>
    ensures content { V.told → OnOk result (seen (V.state volume.new).log Main ≡ bytes.now) }
    ensures settled { V.told → OnOk result (IsSettled (V.state volume.new).log Main) }
    ensures any_moment { V.told → LeavesOnly Main
        (λ image. CrashLeaves (V.state volume.old).log Main image ⊎ (image ≡ bytes.now))
        (V.state volume.old).log (V.state volume.new).log }
    ensures hint { V.told → IsSettled (V.state volume.old).log Hint
        → LeavesOnly Hint (IsOldOrClosed (seen (V.state volume.old).log Hint))
        (V.state volume.old).log (V.state volume.new).log }
    ensures closed { V.told → IsSettled (V.state volume.old).log Hint → OnOk result
        (IsClosed (seen (V.state volume.new).log Hint) × IsSettled (V.state volume.new).log Hint) }
    ensures refused { IfErr result (λ e. e ≡ StoreFault) }
    ensures counts { CountsFault (V.state volume.old) (V.state volume.new) result }
{
    match close_hint(volume) {
        Ok(()) => {}
        Err(_error) => return Err(OpenError::StoreFault),
    }
    append::create(volume, bytes)?;
    Ok(())
}

/// Makes the file of a new database in the place of Main, which is empty, with this stamp. All that
/// takes memory comes before anything is written.
fn make<V: Volume>(alloc: Global, volume: &mut V, clock: Stamp) -> Result<Ready, OpenError>
    requires empty { V.told → seen (V.state volume.old).log Main ≡ [] }
    requires honest { V.told → HasHonestHint (V.state volume.old).log }
    ensures opening { (stamps : Option (List Stamp)) → IsFirst stamps clock
        → IsOpening V.told stamps (V.state volume.old) (V.state volume.new) result }
    ensures hint { V.told → StaysHonest (V.state volume.old).log (V.state volume.new).log }
    ensures hinted { V.told → IfOk result (λ r.
        IsHinted (V.state volume.new).log false r.index.end) }
{
    let file = first_file(alloc, clock)?;
    let NewFile { bytes, ready } = file;
    install(volume, bytes.as_slice())?;
    Ok(ready)
}

/// Opens the file in Main, which isn't empty, as `open_main` of fs_recovery does; where Hint has an
/// index file that may be believed, it is read on from its end. Where that is honest, the answers are
/// those of `open_main`, and Main is left the same.
pub fn open_with_hint<V: Volume>(alloc: Global, volume: &mut V) -> Result<Opened, OpenError>
    requires some { V.told → seen (V.state volume.old).log Main ≢ [] }
    ensures opens { V.told → IsHonest (seen (V.state volume.old).log Main)
        (seen (V.state volume.old).log Hint)
        → OpensMain (V.state volume.old).log (V.state volume.new).log result }
    ensures content { V.told → IfOk result (λ o. seen (V.state volume.new).log Main
        ≡ take o.end (seen (V.state volume.old).log Main)) }
    ensures settled { V.told → OnOk result (IsSettled (V.state volume.new).log Main) }
    ensures untouched { RefusesMain result → (V.state volume.new).log ≡ (V.state volume.old).log }
    ensures others { V.told → OthersStay Main (V.state volume.old).log (V.state volume.new).log }
    ensures bounded { IfOk result (λ o. IsBounded o) }
    ensures counts { CountsFault (V.state volume.old) (V.state volume.new) result }
{
    match read_hint(alloc, volume)? {
        Some(known) => read_on(alloc, volume, known),
        None => open_main(alloc, volume),
    }
}

/// Opens the file in Main, which isn't empty: a tail is cut off, and Main is synced.
fn reopen<V: Volume>(alloc: Global, volume: &mut V) -> Result<Ready, OpenError>
    requires some { V.told → seen (V.state volume.old).log Main ≢ [] }
    requires bytes { V.told → AreBytes (seen (V.state volume.old).log Main) }
    requires short { V.told → length (seen (V.state volume.old).log Main) < 2 ^ 63 }
    requires honest { V.told → HasHonestHint (V.state volume.old).log }
    ensures opening { (stamps : Option (List Stamp)) →
        IsOpening V.told stamps (V.state volume.old) (V.state volume.new) result }
    ensures hint { V.told → IsSettled (V.state volume.old).log Main
        → StaysHonest (V.state volume.old).log (V.state volume.new).log }
    ensures hinted { V.told → IfOk result (λ r.
        IsHinted (V.state volume.new).log false r.index.end) }
{
    let opened = open_with_hint(alloc, volume)?;
    Ok(keep(opened))
}

/// Opens the file in Main, and makes it first where Main is empty. Where the index file is honest at
/// the start, it is at every moment.
pub(crate) fn open<V: Volume, C: Clock>(
    alloc: Global,
    volume: &mut V,
    clock: &mut C,
) -> Result<Ready, OpenError>
    requires { V.told → HasHonestHint (V.state volume.old).log }
    ensures opening { IsOpening V.told (C.stamps clock.old) (V.state volume.old)
        (V.state volume.new) result }
    ensures hint { V.told → IsSettled (V.state volume.old).log Main
        → StaysHonest (V.state volume.old).log (V.state volume.new).log }
    ensures hinted { V.told → IfOk result (λ r.
        IsHinted (V.state volume.new).log false r.index.end) }
    ensures clock { AsksClock V.told (V.state volume.old).log (C.stamps clock.old)
        (C.stamps clock.new) result }
{
    if volume.len(Area::Main)? > 0 {
        return reopen(alloc, volume);
    }
    let now = clock.stamp();
    make(alloc, volume, now)
}
