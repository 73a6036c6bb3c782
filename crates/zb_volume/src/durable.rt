//! Changes that are made sure of, over any volume.

ghost use Rattle.std.specs.Prelude.{◌≡◌, ◌+◌, ◌<◌, ◌≤◌, ◌^◌, [], ◌∷◌, length, take, OnOk};
ghost use Rattle.zb_volume.specs.declared.areas.Area.{Area};
ghost use Rattle.zb_volume.specs.Calls.{Wrote, Cut, Synced, Replaced};
ghost use Rattle.zb_volume.specs.Disk.{seen, area_length, written, IsSettled};
ghost use Rattle.zb_volume.specs.Images.{CrashLeavesWith};
ghost use Rattle.zb_volume.specs.Durable.{OldOrSide};
ghost use Rattle.zb_volume.specs.Moments.{LeavesOnly, StaysAs};
ghost use Rattle.zb_volume.specs.States.{OnlyWrites, OthersStay};

use crate::{Area, StoreFault, Volume};

/// Writes bytes into an area and syncs it. At every moment a crash leaves of the area what it could
/// leave before, or a mix of that and the new content; after `Ok`, the new content alone. After a
/// fault either may be pending.
pub fn write_and_sync<V: Volume>(
    volume: &mut V,
    area: Area,
    at: u64,
    bytes: &[u8],
) -> Result<(), StoreFault>
    requires { V.told → at ≤ area_length (V.state volume.old).log area }
    ensures content { V.told → OnOk result
        (seen (V.state volume.new).log area
        ≡ written (seen (V.state volume.old).log area) at bytes.now) }
    ensures settled { V.told → OnOk result (IsSettled (V.state volume.new).log area) }
    ensures calls { V.told → OnOk result
        ((V.state volume.new).log ≡ Synced area ∷ Wrote area at bytes.now
        ∷ (V.state volume.old).log) }
    ensures any_moment { V.told → LeavesOnly area
        (CrashLeavesWith (V.state volume.old).log area
        (written (seen (V.state volume.old).log area) at bytes.now))
        (V.state volume.old).log (V.state volume.new).log }
    ensures elsewhere { V.told → OthersStay area (V.state volume.old).log (V.state volume.new).log }
    ensures limit { OnOk result (at + length bytes.now < 2 ^ 63) }
    ensures write { OnlyWrites (V.state volume.old) (V.state volume.new) result }
{
    volume.write_at(area, at, bytes)?;
    volume.sync(area)?;
    Ok(())
}

/// Cuts an area to `length` bytes and syncs it. At every moment a crash leaves of the area what it
/// could leave before, or that cut at some length down to this one; after `Ok`, the front alone.
/// After a fault either may be pending.
pub fn cut_and_sync<V: Volume>(volume: &mut V, area: Area, length: u64) -> Result<(), StoreFault>
    requires { V.told → length ≤ area_length (V.state volume.old).log area }
    ensures content { V.told → OnOk result
        (seen (V.state volume.new).log area ≡ take length (seen (V.state volume.old).log area)) }
    ensures settled { V.told → OnOk result (IsSettled (V.state volume.new).log area) }
    ensures calls { V.told → OnOk result
        ((V.state volume.new).log ≡ Synced area ∷ Cut area length ∷ (V.state volume.old).log) }
    ensures any_moment { V.told → LeavesOnly area
        (CrashLeavesWith (V.state volume.old).log area
        (take length (seen (V.state volume.old).log area)))
        (V.state volume.old).log (V.state volume.new).log }
    ensures elsewhere { V.told → OthersStay area (V.state volume.old).log (V.state volume.new).log }
    ensures write { OnlyWrites (V.state volume.old) (V.state volume.new) result }
{
    volume.cut(area, length)?;
    volume.sync(area)?;
    Ok(())
}

/// Syncs Side and puts it in the place of Main. At every moment a crash leaves of Main what it could
/// leave before, or the whole of Side; after `Ok`, Side's bytes alone, and Side is empty. Hint stays.
pub fn sync_and_replace<V: Volume>(volume: &mut V) -> Result<(), StoreFault>
    ensures content { V.told → OnOk result
        (seen (V.state volume.new).log Area.Main ≡ seen (V.state volume.old).log Area.Side) }
    ensures settled { V.told → OnOk result (IsSettled (V.state volume.new).log Area.Main) }
    ensures side { V.told → OnOk result
        ((seen (V.state volume.new).log Area.Side ≡ [])
        × IsSettled (V.state volume.new).log Area.Side) }
    ensures calls { V.told → OnOk result
        ((V.state volume.new).log ≡ Replaced ∷ Synced Area.Side ∷ (V.state volume.old).log) }
    ensures any_moment { V.told → LeavesOnly Area.Main (OldOrSide (V.state volume.old).log)
        (V.state volume.old).log (V.state volume.new).log }
    ensures hint { V.told → StaysAs Area.Hint (V.state volume.old).log (V.state volume.new).log }
    ensures write { OnlyWrites (V.state volume.old) (V.state volume.new) result }
{
    volume.sync(Area::Side)?;
    volume.replace()?;
    Ok(())
}
