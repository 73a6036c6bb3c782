//! A file is put into Main whole.

ghost use Rattle.std.specs.Prelude.{◌≡◌, ◌⊎◌, [], ◌∷◌, OnOk};
ghost use Rattle.zb_volume.specs.declared.areas.Area.{Area};
ghost use Rattle.zb_volume.specs.Calls.{Wrote, Cut, Synced, Replaced};
ghost use Rattle.zb_volume.specs.Disk.{seen, IsSettled};
ghost use Rattle.zb_volume.specs.Images.{CrashLeaves};
ghost use Rattle.zb_volume.specs.Moments.{LeavesOnly, StaysAs};
ghost use Rattle.zb_volume.specs.States.{OnlyWrites};

use zb_volume::{Area, StoreFault, Volume, sync_and_replace};

/// Prepares a file in Side, whatever stands there, and puts it in the place of Main. At every moment
/// a crash leaves of Main what it could leave before, or these bytes; after `Ok`, these bytes alone,
/// and Side is empty. After a fault either may be left, and Side may hold anything. Hint stays.
pub fn create<V: Volume>(volume: &mut V, bytes: &[u8]) -> Result<(), StoreFault>
    ensures content { V.told → OnOk result (seen (V.state volume.new).log Area.Main ≡ bytes.now) }
    ensures settled { V.told → OnOk result (IsSettled (V.state volume.new).log Area.Main) }
    ensures side { V.told → OnOk result
        ((seen (V.state volume.new).log Area.Side ≡ [])
        × IsSettled (V.state volume.new).log Area.Side) }
    ensures calls { V.told → OnOk result
        ((V.state volume.new).log ≡ Replaced ∷ Synced Area.Side ∷ Wrote Area.Side 0 bytes.now ∷ Cut
        Area.Side 0 ∷ (V.state volume.old).log) }
    ensures any_moment { V.told → LeavesOnly Area.Main
        (λ image. CrashLeaves (V.state volume.old).log Area.Main image ⊎ (image ≡ bytes.now))
        (V.state volume.old).log (V.state volume.new).log }
    ensures hint { V.told → StaysAs Area.Hint (V.state volume.old).log (V.state volume.new).log }
    ensures write { OnlyWrites (V.state volume.old) (V.state volume.new) result }
{
    volume.cut(Area::Side, 0)?;
    volume.write_at(Area::Side, 0, bytes)?;
    sync_and_replace(volume)
}
