//! An index file is closed.

ghost use Rattle.std.specs.Prelude.{◌≡◌, ◌∷◌, drop, OnOk};
ghost use Rattle.zb_volume.specs.declared.areas.Area.{Area};
ghost use Rattle.zb_volume.specs.Disk.{seen, IsSettled};
ghost use Rattle.zb_volume.specs.Moments.{LeavesOnly};
ghost use Rattle.zb_volume.specs.States.{OnlyWrites, OthersStay};
ghost use Rattle.fs_index_file.specs.Writes.{ClosesFor, IsClosed, IsOldOrClosed};

use crate::entries::CLOSED;
use zb_model::StoreError;
use zb_volume::{Area, StoreFault, Volume, write_and_sync};

/// Closes the gate of an index file, and syncs it. At every moment a crash leaves of a settled Hint
/// what it was, or closed.
pub(crate) fn shut<V: Volume>(volume: &mut V) -> Result<(), StoreFault>
    ensures content { V.told → OnOk result (seen (V.state volume.new).log Area.Hint
        ≡ 0 ∷ drop 1 (seen (V.state volume.old).log Area.Hint)) }
    ensures settled { V.told → OnOk result (IsSettled (V.state volume.new).log Area.Hint) }
    ensures any_moment { V.told → IsSettled (V.state volume.old).log Area.Hint
        → LeavesOnly Area.Hint (IsOldOrClosed (seen (V.state volume.old).log Area.Hint))
        (V.state volume.old).log (V.state volume.new).log }
    ensures others { V.told → OthersStay Area.Hint (V.state volume.old).log
        (V.state volume.new).log }
    ensures write { OnlyWrites (V.state volume.old) (V.state volume.new) result }
{
    write_and_sync(volume, Area::Hint, 0, &[CLOSED])?;
    Ok(())
}

/// Closes the index file, where Hint isn't empty: the gate is written and synced. It takes no memory.
///
/// `ReadFault` is answered where the length of Hint can't be read, before anything is written, and
/// `StoreFault` where the write or the sync fails; then the gate may be open or closed.
pub fn close_hint<V: Volume>(volume: &mut V) -> Result<(), StoreError>
    ensures closed { V.told → OnOk result (IsClosed (seen (V.state volume.new).log Area.Hint)) }
    ensures settled { V.told → IsSettled (V.state volume.old).log Area.Hint
        → OnOk result (IsSettled (V.state volume.new).log Area.Hint) }
    ensures any_moment { V.told → IsSettled (V.state volume.old).log Area.Hint
        → LeavesOnly Area.Hint (IsOldOrClosed (seen (V.state volume.old).log Area.Hint))
        (V.state volume.old).log (V.state volume.new).log }
    ensures others { V.told → OthersStay Area.Hint (V.state volume.old).log
        (V.state volume.new).log }
    ensures causes { ClosesFor (V.state volume.old) (V.state volume.new) result }
{
    let length = match volume.len(Area::Hint) {
        Ok(length) => length,
        Err(StoreFault) => return Err(StoreError::ReadFault),
    };
    if length == 0 {
        return Ok(());
    }
    match shut(volume) {
        Ok(()) => Ok(()),
        Err(StoreFault) => Err(StoreError::StoreFault),
    }
}
