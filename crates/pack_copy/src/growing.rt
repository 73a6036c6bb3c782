//! The file on Side grows by one transaction.

ghost use Rattle.std.specs.Prelude.{◌≡◌, ◌-◌, ◌<◌, ◌≤◌, ◌^◌, ◌++◌, ◌∷◌, [], length, IfOk, OnOk};
ghost use Rattle.zb_volume.specs.declared.areas.Area.TheVariants.{Side};
ghost use Rattle.zb_volume.specs.Disk.{main_bytes};
ghost use Rattle.zb_volume.specs.States.{OthersStay};
ghost use Rattle.zb_model.specs.Database.{newest_tid};
ghost use Rattle.fs_records.specs.Listed.{listed};
ghost use Rattle.fs_recovery.specs.Opens.{newest_kept};
ghost use Rattle.fs_reading.specs.Outlines.{AllStandWithin, IsOutline, outlined_transaction};
ghost use Rattle.pack_copy.specs.Appending.{IsAtEnd, with_held};
ghost use Rattle.pack_copy.specs.Copying.{IsCopied};
ghost use Rattle.pack_copy.specs.Counting.{IsCopyCounted};
ghost use Rattle.pack_copy.specs.Growing.{HasRoomToKeep, IsSame, IsWith, StandsNext};
ghost use Rattle.pack_copy.specs.Outlined.{IsReady};

use crate::buffer::Buffer;
use crate::placing::place_records;
use crate::ready::Ready;
use crate::state::CopyState;
use crate::writing::put_block;
use fs_index::Place;
use fs_reading::Outline;
use fs_records::HEADER_LENGTH;
use std::alloc::{AllocError, Global};
use zb_ids::Tid;
use zb_model::StoreError;
use zb_volume::Volume;

/// The greatest length of a file.
const MOST: u64 = (1 << 63) - 1;

impl CopyState {
    /// Finds where a transaction is to stand behind the file on Side, and makes room for its places and
    /// its numbers. The one error is want of memory, also where the file would be longer than 2^63 - 1
    /// bytes. But for room nothing is changed.
    fn make_ready(&mut self, alloc: Global, outline: &Outline) -> Result<Ready, AllocError>
        requires outline { IsOutline outline.now }
        ensures ready { IfOk result (λ ready. IsReady self.new.end outline.now ready) }
        ensures room { IfOk result (λ ready. HasRoomToKeep self.new ready) }
        ensures same { IsSame self.old self.new }
    {
        let texts = outline.user.len() as u64
            + outline.description.len() as u64
            + outline.extension.len() as u64;
        let from = self.end + (HEADER_LENGTH as u64 + texts);
        let ready = place_records(alloc, outline.tid, from, outline.changes.as_slice())?;
        if ready.end > MOST {
            return Err(AllocError);
        }
        self.index.reserve(ready.records.as_slice())?;
        self.numbers.reserve(ready.records.len())?;
        Ok(ready)
    }

    /// Keeps the places and the numbers of a transaction that now stands behind the file on Side, for
    /// which room was made. It takes no memory.
    fn keep(&mut self, tid: Tid, packed: bool, ready: &Ready)
        requires room { HasRoomToKeep self.old ready.now }
        requires above { newest_kept self.old.index ≤ tid }
        requires bound { tid < 2 ^ 64 - 1 }
        requires next { StandsNext self.old tid ready.now }
        ensures { IsWith self.old self.new tid packed ready.now }
    {
        let start = Place {
            serial: tid,
            at: self.end,
        };
        self.index.add_reserved(start, ready.records.as_slice());
        let _ = self.numbers.add(tid, packed, ready.records.as_slice());
        self.end = ready.end;
    }
}

/// Puts an outlined transaction behind the file that Side is with what is held, with each content in
/// full, which goes there from Main through the buffer. The one errors are a read or a write that
/// failed, and want of memory, also where the file would be longer than 2^63 - 1 bytes; then Side may
/// hold anything. Main is as it was at every moment.
pub(crate) fn append<V: Volume>(
    alloc: Global,
    volume: &mut V,
    buffer: &mut Buffer,
    to: &mut CopyState,
    outline: &Outline,
) -> Result<(), StoreError>
    requires outline { IsOutline outline.now }
    requires above { newest_kept to.old.index ≤ outline.now.tid }
    requires bound { outline.now.tid < 2 ^ 64 - 1 }
    requires short { V.told → length (main_bytes (V.state volume.old).log) < 2 ^ 64 }
    requires within { V.told
        → AllStandWithin (main_bytes (V.state volume.old).log) outline.now.changes }
    requires side { V.told → IsAtEnd (V.state volume.old).log buffer.old }
    requires copied { V.told → IsCopied (with_held (V.state volume.old).log buffer.old) to.old }
    requires later { V.told
        → newest_tid (listed (with_held (V.state volume.old).log buffer.old)) < outline.now.tid }
    ensures side { V.told → OnOk result (IsAtEnd (V.state volume.new).log buffer.new) }
    ensures copied { V.told
        → OnOk result (IsCopied (with_held (V.state volume.new).log buffer.new) to.new) }
    ensures list { V.told → OnOk result (listed (with_held (V.state volume.new).log buffer.new)
        ≡ listed (with_held (V.state volume.old).log buffer.old)
        ++ outlined_transaction (main_bytes (V.state volume.old).log) outline.now ∷ []) }
    ensures others { V.told → OthersStay Side (V.state volume.old).log (V.state volume.new).log }
    ensures newest { OnOk result (newest_kept to.new.index ≡ outline.now.tid) }
    ensures tid { to.new.tid ≡ to.old.tid }
    ensures counts { IsCopyCounted (V.state volume.old) (V.state volume.new) result }
{
    let ready = to.make_ready(alloc, outline)?;
    put_block(volume, buffer, &to.index, to.end, ready.end, outline)?;
    to.keep(outline.tid, outline.packed, &ready);
    Ok(())
}
