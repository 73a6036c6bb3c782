//! Side takes the place of Main.

ghost use Rattle.std.specs.Prelude.{◌≡◌, ◌⊎◌, ◌-◌, ◌∷◌, IfOk, OnOk};
ghost use Rattle.zb_volume.specs.declared.areas.Area.{Area};
ghost use Rattle.zb_volume.specs.Calls.{Replaced, Synced};
ghost use Rattle.zb_volume.specs.Disk.{seen, IsSettled};
ghost use Rattle.zb_volume.specs.Moments.{LeavesOnly, StaysAs};
ghost use Rattle.fs_records.specs.Listed.{listed};
ghost use Rattle.fs_recovery.specs.Numbers.{AreNumbersOf};
ghost use Rattle.fs_recovery.specs.Opens.{IsBounded};
ghost use Rattle.zb_model.specs.Packs.{change_count};
ghost use Rattle.pack_copy.specs.Copying.{IsCopied, opened_of};
ghost use Rattle.zb_volume.specs.States.{OnlyWrites};

use fs_recovery::{Numbers, Opened};
use pack_copy::{CopyState, changes_of};
use zb_model::Packed;
use zb_volume::{StoreFault, Volume, sync_and_replace};

/// A file that was packed.
#[derive(Drop)]
pub(crate) struct Switched {
    /// What is known of Main, as where it was just opened: its index, the numbers of its list, and
    /// its end. It has no tail.
    pub(crate) opened: Opened,
    /// How many changes stay, and how many went.
    pub(crate) packed: Packed,
}

/// Syncs Side and puts it in the place of Main, with what is known of Side; `from` are the numbers of
/// the list in Main before. It takes no memory, so nothing but a call of the volume can fail, and once
/// it is replaced nothing can.
///
/// At every moment a crash leaves of Main the old file, or the whole of the one on Side; after `Ok`,
/// the latter alone, and Side is empty: that follows of the two calls. After a fault either may be
/// left. Hint stays.
pub(crate) fn switch<V: Volume>(
    volume: &mut V,
    from: &Numbers,
    copy: CopyState,
) -> Result<Switched, StoreFault>
    requires copied { V.told → IsCopied (seen (V.state volume.old).log Area.Side) copy }
    requires counted { V.told
        → AreNumbersOf (listed (seen (V.state volume.old).log Area.Main)) from.now }
    ensures calls { V.told → OnOk result
        ((V.state volume.new).log ≡ Replaced ∷ Synced Area.Side ∷ (V.state volume.old).log) }
    ensures opened { IfOk result (λ s. s.opened ≡ opened_of copy) }
    ensures bounded { IfOk result (λ s. IsBounded s.opened) }
    ensures kept { V.told
        → IfOk result (λ s. s.packed.kept
        ≡ change_count (listed (seen (V.state volume.old).log Area.Side))) }
    ensures dropped { V.told → IfOk result (λ s. s.packed.dropped
        ≡ change_count (listed (seen (V.state volume.old).log Area.Main))
        - change_count (listed (seen (V.state volume.old).log Area.Side))) }
    ensures any_moment { V.told → IsSettled (V.state volume.old).log Area.Main
        → LeavesOnly Area.Main
        (λ image. (image ≡ seen (V.state volume.old).log Area.Main)
        ⊎ (image ≡ seen (V.state volume.old).log Area.Side))
        (V.state volume.old).log (V.state volume.new).log }
    ensures hint { V.told → StaysAs Area.Hint (V.state volume.old).log (V.state volume.new).log }
    ensures write { OnlyWrites (V.state volume.old) (V.state volume.new) result }
{
    let kept = copy.changes();
    let dropped = changes_of(from).saturating_sub(kept);
    sync_and_replace(volume)?;
    Ok(Switched {
        opened: copy.into_opened(),
        packed: Packed { kept, dropped },
    })
}
