//! A transaction is voted behind the file in Main, and then finished or aborted.

ghost use Rattle.std.specs.Prelude.{◌≡◌, ◌⊎◌, ◌+◌, ◌<◌, ◌≤◌, ◌^◌, [], ◌∷◌, length, take, slice_set, OnOk};
ghost use Rattle.zb_volume.specs.declared.areas.Area.{Area};
ghost use Rattle.zb_volume.specs.Calls.{Wrote, Cut, Synced};
ghost use Rattle.zb_volume.specs.Disk.{seen, area_length, written, IsSettled};
ghost use Rattle.zb_volume.specs.Moments.{LeavesOnly, StaysAs};
ghost use Rattle.fs_records.specs.Blocks.{Reached};
ghost use Rattle.fs_append.specs.Appending.{HasFront, IsStillRead, IsVote, IsVoted};
ghost use Rattle.zb_volume.specs.States.{OnlyWrites};

use fs_records::{COMMITTED, STATUS_PLACE};
use zb_volume::{Area, StoreFault, Volume, cut_and_sync, write_and_sync};

/// Puts the bytes of a transaction into Main at the place `end`, in one write, and syncs it. Where
/// they have the status of a vote and the file ended there, a crash at any moment leaves bytes that
/// stand for what was read before; the bytes before `end` stay; after `Ok` the transaction is voted. After a fault, as where Main
/// would be longer than 2^63 - 1 bytes, some of its bytes may stand there or none.
pub fn vote<V: Volume>(volume: &mut V, end: u64, bytes: &[u8]) -> Result<(), StoreFault>
    requires end { end < 2 ^ 63 }
    requires within { V.told → end ≤ area_length (V.state volume.old).log Area.Main }

    ensures content { V.told → OnOk result
        (seen (V.state volume.new).log Area.Main
        ≡ written (seen (V.state volume.old).log Area.Main) end bytes.now) }
    ensures settled { V.told → OnOk result (IsSettled (V.state volume.new).log Area.Main) }
    ensures calls { V.told → OnOk result
        ((V.state volume.new).log ≡ Synced Area.Main ∷ Wrote Area.Main end bytes.now
        ∷ (V.state volume.old).log) }
    ensures any_moment { V.told → (s : Reached) → IsVote (V.state volume.old).log s end bytes.now →
        LeavesOnly Area.Main (IsStillRead s) (V.state volume.old).log (V.state volume.new).log }
    ensures front { V.told → IsSettled (V.state volume.old).log Area.Main
        → LeavesOnly Area.Main (HasFront end (seen (V.state volume.old).log Area.Main))
        (V.state volume.old).log (V.state volume.new).log }
    ensures side { V.told → StaysAs Area.Side (V.state volume.old).log (V.state volume.new).log }
    ensures hint { V.told → StaysAs Area.Hint (V.state volume.old).log (V.state volume.new).log }
    ensures limit { OnOk result (end + length bytes.now < 2 ^ 63) }
    ensures write { OnlyWrites (V.state volume.old) (V.state volume.new) result }
{
    write_and_sync(volume, Area::Main, end, bytes)
}

/// Finishes the transaction that was voted at the place `end`: its status becomes that of a
/// committed one, by one byte, and Main is synced. At every moment a crash leaves of a settled Main
/// what stood there before or that with this byte; after `Ok`, the latter alone. After a fault
/// either may be left.
pub fn finish<V: Volume>(volume: &mut V, end: u64) -> Result<(), StoreFault>
    requires end { end < 2 ^ 63 }
    requires within { V.told → end + 17 ≤ area_length (V.state volume.old).log Area.Main }

    ensures content { V.told → OnOk result
        (seen (V.state volume.new).log Area.Main
        ≡ slice_set (seen (V.state volume.old).log Area.Main) (end + 16) 32) }
    ensures settled { V.told → OnOk result (IsSettled (V.state volume.new).log Area.Main) }
    ensures calls { V.told → OnOk result
        ((V.state volume.new).log ≡ Synced Area.Main ∷ Wrote Area.Main (end + 16) (32 ∷ []) ∷
        (V.state volume.old).log) }
    ensures any_moment { V.told → IsSettled (V.state volume.old).log Area.Main
        → LeavesOnly Area.Main
        (λ image. (image ≡ seen (V.state volume.old).log Area.Main)
        ⊎ (image ≡ slice_set (seen (V.state volume.old).log Area.Main) (end + 16) 32))
        (V.state volume.old).log (V.state volume.new).log }
    ensures side { V.told → StaysAs Area.Side (V.state volume.old).log (V.state volume.new).log }
    ensures hint { V.told → StaysAs Area.Hint (V.state volume.old).log (V.state volume.new).log }
    ensures write { OnlyWrites (V.state volume.old) (V.state volume.new) result }
{
    write_and_sync(volume, Area::Main, end + STATUS_PLACE as u64, &[COMMITTED])
}

/// Cuts Main to its first `end` bytes, behind which a transaction was voted, and syncs it. At every
/// moment a crash leaves bytes that stand for what was read before the vote; after `Ok`, the first
/// `end` bytes alone. After a fault the transaction may still stand there, or some of it.
pub fn abort<V: Volume>(volume: &mut V, end: u64) -> Result<(), StoreFault>
    requires end { end < 2 ^ 63 }
    requires within { V.told → end ≤ area_length (V.state volume.old).log Area.Main }

    ensures content { V.told → OnOk result
        (seen (V.state volume.new).log Area.Main
        ≡ take end (seen (V.state volume.old).log Area.Main)) }
    ensures settled { V.told → OnOk result (IsSettled (V.state volume.new).log Area.Main) }
    ensures calls { V.told → OnOk result
        ((V.state volume.new).log ≡ Synced Area.Main ∷ Cut Area.Main end
        ∷ (V.state volume.old).log) }
    ensures any_moment { V.told → (s : Reached) → IsVoted (V.state volume.old).log s end →
        LeavesOnly Area.Main (IsStillRead s) (V.state volume.old).log (V.state volume.new).log }
    ensures front { V.told → IsSettled (V.state volume.old).log Area.Main
        → LeavesOnly Area.Main (HasFront end (seen (V.state volume.old).log Area.Main))
        (V.state volume.old).log (V.state volume.new).log }
    ensures side { V.told → StaysAs Area.Side (V.state volume.old).log (V.state volume.new).log }
    ensures hint { V.told → StaysAs Area.Hint (V.state volume.old).log (V.state volume.new).log }
    ensures write { OnlyWrites (V.state volume.old) (V.state volume.new) result }
{
    cut_and_sync(volume, Area::Main, end)
}
