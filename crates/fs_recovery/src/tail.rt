//! A tail is cut off, and Main is made sure of.

ghost use Rattle.std.specs.Prelude.{◌≡◌, ◌≤◌, length, take, OnOk};
ghost use Rattle.zb_volume.specs.declared.areas.Area.{Area};
ghost use Rattle.zb_volume.specs.Disk.{IsSettled, main_bytes};
ghost use Rattle.zb_volume.specs.Images.{CrashLeavesWith};
ghost use Rattle.zb_volume.specs.Moments.{LeavesOnly};
ghost use Rattle.zb_volume.specs.States.{OnlyWrites, OthersStay};

use zb_volume::{Area, StoreFault, Volume};

/// Syncs Main.
fn sync_main<V: Volume>(volume: &mut V) -> Result<(), StoreFault>
    ensures content { V.told → OnOk result (main_bytes (V.state volume.new).log
        ≡ main_bytes (V.state volume.old).log) }
    ensures settled { V.told → OnOk result (IsSettled (V.state volume.new).log Area.Main) }
    ensures any_moment { V.told → LeavesOnly Area.Main
        (CrashLeavesWith (V.state volume.old).log Area.Main (main_bytes (V.state volume.old).log))
        (V.state volume.old).log (V.state volume.new).log }
    ensures others { V.told → OthersStay Area.Main (V.state volume.old).log
        (V.state volume.new).log }
    ensures write { OnlyWrites (V.state volume.old) (V.state volume.new) result }
{
    volume.sync(Area::Main)?;
    Ok(())
}

/// Keeps the first `end` of the `long` bytes of Main, and makes sure of them. At every moment a
/// crash leaves of Main what it could leave before, or that cut at some length down to this one.
pub fn keep_front<V: Volume>(volume: &mut V, long: u64, end: u64) -> Result<(), StoreFault>
    requires long { V.told → long ≡ length (main_bytes (V.state volume.old).log) }
    requires within { end ≤ long }
    ensures content { V.told →
        OnOk result (main_bytes (V.state volume.new).log
        ≡ take end (main_bytes (V.state volume.old).log)) }
    ensures settled { V.told → OnOk result (IsSettled (V.state volume.new).log Area.Main) }
    ensures any_moment { V.told → LeavesOnly Area.Main
        (CrashLeavesWith (V.state volume.old).log Area.Main
        (take end (main_bytes (V.state volume.old).log)))
        (V.state volume.old).log (V.state volume.new).log }
    ensures others { V.told → OthersStay Area.Main (V.state volume.old).log
        (V.state volume.new).log }
    ensures write { OnlyWrites (V.state volume.old) (V.state volume.new) result }
{
    if end < long {
        volume.cut(Area::Main, end)?;
        volume.sync(Area::Main)?;
        return Ok(());
    }
    sync_main(volume)
}
