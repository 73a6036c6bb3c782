//! A turn of a copy.

ghost use Rattle.std.specs.Prelude.{◌≡◌, ℕ, ◌-◌, ◌≤◌, ◌<◌, ◌^◌, Some, false, true, slice_get, All, IfOk, OnOk};
ghost use Rattle.zb_volume.specs.declared.areas.Area.{Area};
ghost use Rattle.zb_volume.specs.declared.areas.Area.TheVariants.{Side};
ghost use Rattle.zb_volume.specs.Disk.{seen};
ghost use Rattle.zb_volume.specs.Moments.{StaysAs};
ghost use Rattle.zb_volume.specs.States.{OthersStay};
ghost use Rattle.zb_model.specs.Packing.{packed_by};
ghost use Rattle.zb_model.specs.Packs.{IsCopyTurn, IsPrefixOf};
ghost use Rattle.fs_records.specs.Listed.{listed, reached_in};
ghost use Rattle.fs_index.specs.Places.{IsRising};
ghost use Rattle.fs_records.specs.Blocks.{Reached, Begins};
ghost use Rattle.fs_reading.specs.Main.{IsStart, IsStartOf};
ghost use Rattle.fs_recovery.specs.Opens.{newest_kept};
ghost use Rattle.fs_reading.specs.Outlines.{AllStandWithin, IsOutline, outlined_transaction};
ghost use Rattle.pack_copy.specs.Appending.{IsAtEnd, with_held};
ghost use Rattle.pack_copy.specs.Copying.{IsCopied, IsSource, copied_in};
ghost use Rattle.pack_copy.specs.UpTo.{AddsUnlessEnough, GoesOn, IsCopiedUpTo, IsCountUpTo, IsNext, Went};
ghost use Rattle.pack_copy.specs.InFull.{full_file};
ghost use Rattle.pack_copy.specs.Counting.{IsCopyCounted};

use crate::buffer::Buffer;
use crate::extent::{Extent, is_over};
use crate::filtering::left_of;
use crate::growing::append;
use crate::state::CopyState;
use fs_index::{Index, Place};
use fs_reading::{Outline, read_outline_at};
use std::alloc::Global;
use zb_ids::Tid;
use zb_model::{Copied, OidSet, StoreError};
use zb_volume::{Area, Volume};

/// An outline with this number.
fn with_tid(outline: Outline, tid: Tid) -> Outline
    ensures { result ≡ record outline { tid = tid } }
{
    let Outline {
        tid: _,
        packed,
        user,
        description,
        extension,
        changes,
    } = outline;
    Outline {
        tid,
        packed,
        user,
        description,
        extension,
        changes,
    }
}

/// The outline of the transaction at a place of Main, with the number that its place has.
fn read_at<V: Volume>(alloc: Global, volume: &mut V, start: Place) -> Result<Outline, StoreError>
    requires { V.told → IsStart (seen (V.state volume.old).log Area.Main) start }
    ensures transaction { V.told → (reached : Reached) (number : ℕ)
        → Begins (seen (V.state volume.old).log Area.Main) reached → IsStartOf reached number start
        → IfOk result (λ outline. slice_get reached.list number
        ≡ Some (outlined_transaction (seen (V.state volume.old).log Area.Main) outline)) }
    ensures within { V.told → IfOk result (λ outline.
        AllStandWithin (seen (V.state volume.old).log Area.Main) outline.changes) }
    ensures formed { IfOk result (λ outline. IsOutline outline) }
    ensures tid { IfOk result (λ outline. outline.tid ≡ start.serial) }
    ensures same { (V.state volume.new).log ≡ (V.state volume.old).log }
    ensures counts { IsCopyCounted (V.state volume.old) (V.state volume.new) result }
{
    let tid = start.serial;
    let outline = read_outline_at(alloc, volume, start)?;
    Ok(with_tid(outline, tid))
}

/// Puts what is left of the transaction at a place of Main behind Side and what is held, where all
/// transactions before it were gone over, unless a turn has copied enough. The answer is whether it was
/// gone over: something is left of one that wasn't.
fn copy_one<V: Volume>(
    alloc: Global,
    volume: &mut V,
    buffer: &mut Buffer,
    from: &Index,
    to: &mut CopyState,
    keep: &OidSet,
    start: Place,
    enough: bool,
) -> Result<bool, StoreError>
    requires above { newest_kept to.old.index ≤ start.serial }
    requires bound { start.serial < 2 ^ 64 - 1 }
    requires side { V.told → IsAtEnd (V.state volume.old).log buffer.old }
    requires source { V.told → IsSource (seen (V.state volume.old).log Area.Main) from.now }
    requires next { V.told → (number : ℕ)
        × IsStartOf (reached_in (seen (V.state volume.old).log Area.Main)) number start
        × IsCopiedUpTo (listed (seen (V.state volume.old).log Area.Main))
        (with_held (V.state volume.old).log buffer.old) to.old keep.now number }
    ensures side { V.told → OnOk result (IsAtEnd (V.state volume.new).log buffer.new) }
    ensures next { V.told → (number : ℕ)
        → IsStartOf (reached_in (seen (V.state volume.old).log Area.Main)) number start
        → IsCopiedUpTo (listed (seen (V.state volume.old).log Area.Main))
        (with_held (V.state volume.old).log buffer.old) to.old keep.now number
        → IfOk result (GoesOn (listed (seen (V.state volume.old).log Area.Main))
        (with_held (V.state volume.new).log buffer.new) to.new keep.now number) }
    ensures enough { IfOk result (λ over. over ≡ false → enough ≡ true) }
    ensures added { V.told → IfOk result (λ over. AddsUnlessEnough enough
        (listed (with_held (V.state volume.old).log buffer.old))
        (listed (with_held (V.state volume.new).log buffer.new))) }
    ensures newest { OnOk result (newest_kept to.new.index ≤ start.serial) }
    ensures tid { to.new.tid ≡ to.old.tid }
    ensures unmoved { IfOk result (λ over. over ≡ false → ((V.state volume.new).log
        ≡ (V.state volume.old).log) × (buffer.new ≡ buffer.old) × (to.new ≡ to.old)) }
    ensures others { V.told → OthersStay Side (V.state volume.old).log (V.state volume.new).log }
    ensures counts { IsCopyCounted (V.state volume.old) (V.state volume.new) result }
{
    let outline = read_at(alloc, volume, start)?;
    match left_of(from, to.tid, keep, outline) {
        Some(left) => {
            if enough {
                return Ok(false);
            }
            append(alloc, volume, buffer, to, &left)?;
            Ok(true)
        }
        None => Ok(true),
    }
}

/// Puts what is left of the transactions of Main from the one with this number on, counted from 0,
/// behind Side and what is held, where all before it were gone over: a turn of it, or all. The answer is
/// whether that is all. Side is written where the buffer is full.
fn copy_each<V: Volume>(
    alloc: Global,
    volume: &mut V,
    buffer: &mut Buffer,
    from: &Index,
    to: &mut CopyState,
    keep: &OidSet,
    first: usize,
    extent: Extent,
) -> Result<bool, StoreError>
    requires next { IsNext from.now (newest_kept to.old.index) first }
    requires source { V.told → IsSource (seen (V.state volume.old).log Area.Main) from.now }
    requires side { V.told → IsAtEnd (V.state volume.old).log buffer.old }
    requires up_to { V.told → IsCopiedUpTo (listed (seen (V.state volume.old).log Area.Main))
        (with_held (V.state volume.old).log buffer.old) to.old keep.now first }
    ensures side { V.told → OnOk result (IsAtEnd (V.state volume.new).log buffer.new) }
    ensures went { V.told → IfOk result (Went extent from.now keep.now first
        (listed (seen (V.state volume.old).log Area.Main))
        (with_held (V.state volume.old).log buffer.old)
        (with_held (V.state volume.new).log buffer.new) to.new) }
    ensures rest { extent ≡ Extent.Rest → IfOk result (λ whole. whole ≡ true) }
    ensures tid { to.new.tid ≡ to.old.tid }
    ensures others { V.told → OthersStay Side (V.state volume.old).log (V.state volume.new).log }
    ensures counts { IsCopyCounted (V.state volume.old) (V.state volume.new) result }
{
    let starts = from.transactions();
    let rest = &starts[first..];
    'copy: for start in rest {
        let enough = is_over(extent, to.changes());
        let over = copy_one(alloc, volume, buffer, from, to, keep, *start, enough)?;
        if !over {
            return Ok(false);
        }
    }
    Ok(true)
}

/// Copies what is left of the transactions of Main from the one with this number on, counted from 0,
/// where all before it were gone over: a turn of it, or all. The answer is whether all is copied. Side is
/// written where 64 KiB are held, and at the end.
fn copy_from<V: Volume>(
    alloc: Global,
    volume: &mut V,
    from: &Index,
    to: &mut CopyState,
    keep: &OidSet,
    first: usize,
    extent: Extent,
) -> Result<bool, StoreError>
    requires next { IsNext from.now (newest_kept to.old.index) first }
    requires source { V.told → IsSource (seen (V.state volume.old).log Area.Main) from.now }
    requires up_to { V.told → IsCopiedUpTo (listed (seen (V.state volume.old).log Area.Main))
        (seen (V.state volume.old).log Area.Side) to.old keep.now first }
    ensures went { V.told → IfOk result (Went extent from.now keep.now first
        (listed (seen (V.state volume.old).log Area.Main))
        (seen (V.state volume.old).log Area.Side)
        (seen (V.state volume.new).log Area.Side) to.new) }
    ensures rest { extent ≡ Extent.Rest → IfOk result (λ whole. whole ≡ true) }
    ensures tid { to.new.tid ≡ to.old.tid }
    ensures others { V.told → OthersStay Side (V.state volume.old).log (V.state volume.new).log }
    ensures counts { IsCopyCounted (V.state volume.old) (V.state volume.new) result }
{
    let mut buffer = Buffer::new(alloc)?;
    buffer.start(to.end());
    let whole = copy_each(alloc, volume, &mut buffer, from, to, keep, first, extent)?;
    buffer.flush(volume)?;
    Ok(whole)
}

/// How many of these places are of a transaction up to a tid. They are the first ones.
fn count_up_to(starts: &[Place], tid: Tid) -> usize
    requires { IsRising starts.now }
    ensures { IsCountUpTo starts.now tid result }
{
    starts.partition_point(|p| p.serial <= tid)
}

/// Copies more of what is left of Main's list, packed up to the tid of the copy, where just these objects
/// keep their changes up to it: transaction by transaction, each whole, until 64 changes or more are copied
/// or nothing is left. The answer is how many are copied in all, and whether that is the whole packed list.
/// Each content stands on Side in full, and that an object isn't there with back pointer 0.
///
/// With an error Side may hold anything, and the copy is to be dropped: `StoreFault` comes only where a
/// write failed, `ReadFault` only where a read did, and `Memory` where neither did, also where Side would
/// be longer than 2^63 - 1 bytes. Memory is that of the index, of the outline of one transaction at a
/// time, and of 64 KiB through which its contents go. Main is as it was at every moment.
pub fn copy_turn<V: Volume>(
    alloc: Global,
    volume: &mut V,
    from: &Index,
    to: &mut CopyState,
    keep: &OidSet,
) -> Result<Copied, StoreError>
    requires bound { All (λ p. p.serial < 2 ^ 64 - 1) from.now.transactions }
    requires source { V.told → IsSource (seen (V.state volume.old).log Area.Main) from.now }
    requires copied { V.told → IsCopied (seen (V.state volume.old).log Area.Side) to.old }
    requires prefix { V.told → IsPrefixOf
        (packed_by to.old.tid keep.now (listed (seen (V.state volume.old).log Area.Main)))
        (listed (seen (V.state volume.old).log Area.Side)) }
    ensures copied { V.told
        → OnOk result (IsCopied (seen (V.state volume.new).log Area.Side) to.new) }
    ensures turn { V.told → IfOk result (IsCopyTurn
        (packed_by to.old.tid keep.now (listed (seen (V.state volume.old).log Area.Main)))
        (copied_in to.old.tid (seen (V.state volume.old).log Area.Side))
        (copied_in to.new.tid (seen (V.state volume.new).log Area.Side))) }
    ensures tid { to.new.tid ≡ to.old.tid }
    ensures main { V.told → StaysAs Area.Main (V.state volume.old).log (V.state volume.new).log }
    ensures hint { V.told → StaysAs Area.Hint (V.state volume.old).log (V.state volume.new).log }
    ensures counts { IsCopyCounted (V.state volume.old) (V.state volume.new) result }
{
    let first = count_up_to(from.transactions(), to.newest());
    let turn = Extent::Turn(to.changes());
    let whole = copy_from(alloc, volume, from, to, keep, first, turn)?;
    Ok(Copied {
        count: to.changes(),
        whole,
    })
}

/// Copies all that is left of the packed list, as `copy_turn` does in turns: what stands on Side is then
/// the whole packed list, and its text is a function of it.
pub fn copy_rest<V: Volume>(
    alloc: Global,
    volume: &mut V,
    from: &Index,
    to: &mut CopyState,
    keep: &OidSet,
) -> Result<(), StoreError>
    requires bound { All (λ p. p.serial < 2 ^ 64 - 1) from.now.transactions }
    requires source { V.told → IsSource (seen (V.state volume.old).log Area.Main) from.now }
    requires copied { V.told → IsCopied (seen (V.state volume.old).log Area.Side) to.old }
    requires prefix { V.told → IsPrefixOf
        (packed_by to.old.tid keep.now (listed (seen (V.state volume.old).log Area.Main)))
        (listed (seen (V.state volume.old).log Area.Side)) }
    ensures copied { V.told
        → OnOk result (IsCopied (seen (V.state volume.new).log Area.Side) to.new) }
    ensures list { V.told → OnOk result (listed (seen (V.state volume.new).log Area.Side)
        ≡ packed_by to.old.tid keep.now (listed (seen (V.state volume.old).log Area.Main))) }
    ensures text { V.told
        → OnOk result (seen (V.state volume.new).log Area.Side
        ≡ full_file (packed_by to.old.tid keep.now
        (listed (seen (V.state volume.old).log Area.Main)))) }
    ensures tid { to.new.tid ≡ to.old.tid }
    ensures main { V.told → StaysAs Area.Main (V.state volume.old).log (V.state volume.new).log }
    ensures hint { V.told → StaysAs Area.Hint (V.state volume.old).log (V.state volume.new).log }
    ensures counts { IsCopyCounted (V.state volume.old) (V.state volume.new) result }
{
    let first = count_up_to(from.transactions(), to.newest());
    let _ = copy_from(alloc, volume, from, to, keep, first, Extent::Rest)?;
    Ok(())
}
