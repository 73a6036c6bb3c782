//! The file is packed: the copy of its packed list is made whole, and takes its place.

ghost use Rattle.std.specs.Prelude.{IfOk};
ghost use Rattle.zb_volume.specs.declared.areas.Area.TheVariants.{Main, Side};
ghost use Rattle.zb_volume.specs.Disk.{seen, IsSettled};
ghost use Rattle.zb_volume.specs.Moments.{LeavesOnly};
ghost use Rattle.zb_model.specs.Packing.{packed_by};
ghost use Rattle.zb_model.specs.Packs.{IsPackCount, IsPrefixOf, StandsForOneOfTwo};
ghost use Rattle.fs_records.specs.Listed.{listed};
ghost use Rattle.fs_recovery.specs.Numbers.{AreNumbersOf};
ghost use Rattle.fs_recovery.specs.Opens.{IsBounded};
ghost use Rattle.pack_copy.specs.Copying.{IsCopied, IsSource};
ghost use Rattle.pack_copy.specs.Counting.{IsCopyCounted};
ghost use Rattle.file_store.specs.Kept.{StandsForList};
ghost use Rattle.file_store.specs.Packing.{IsPackedMain, PackWrites};

use crate::staging::StagedIndex;
use crate::switching::{Switched, switch};
use fs_index_file::close_hint;
use fs_recovery::Numbers;
use pack_copy::{CopyState, copy_rest};
use std::alloc::Global;
use zb_model::{OidSet, StoreError};
use zb_volume::{StoreFault, Volume};

/// Copies what is left of the packed list to Side, closes the index file, and puts Side in the place of
/// Main. The answer is what is known of Main then, with the counts of the pack.
///
/// `ReadFault` and `Memory` come before Main or Hint is touched; no memory is taken once Side is whole. At
/// every moment a crash leaves of Main what stands for the list or for the packed one.
pub(crate) fn pack_file<V: Volume>(
    alloc: Global,
    volume: &mut V,
    index: &StagedIndex,
    numbers: &Numbers,
    mut copy: CopyState,
    keep: &OidSet,
) -> Result<Switched, StoreError>
    requires settled { V.told → IsSettled (V.state volume.old).log Main }
    requires source { V.told → IsSource (seen (V.state volume.old).log Main) index.now.kept }
    requires counted { V.told
        → AreNumbersOf (listed (seen (V.state volume.old).log Main)) numbers.now }
    requires copied { V.told → IsCopied (seen (V.state volume.old).log Side) copy }
    requires prefix { V.told → IsPrefixOf
        (packed_by copy.tid keep.now (listed (seen (V.state volume.old).log Main)))
        (listed (seen (V.state volume.old).log Side)) }
    ensures packed { V.told → IfOk result (λ s. IsPackedMain (V.state volume.new).log s.opened
        (packed_by copy.tid keep.now (listed (seen (V.state volume.old).log Main)))) }
    ensures bounded { IfOk result (λ s. IsBounded s.opened) }
    ensures counts { V.told → IfOk result (λ s.
        IsPackCount (listed (seen (V.state volume.old).log Main))
        (listed (seen (V.state volume.new).log Main)) s.packed) }
    ensures any_moment { V.told → LeavesOnly Main
        (StandsForOneOfTwo StandsForList (listed (seen (V.state volume.old).log Main))
        (packed_by copy.tid keep.now (listed (seen (V.state volume.old).log Main))))
        (V.state volume.old).log (V.state volume.new).log }
    ensures writes { V.told
        → PackWrites (V.state volume.old).log (V.state volume.new).log result }
    ensures faults { IsCopyCounted (V.state volume.old) (V.state volume.new) result }
{
    copy_rest(alloc, volume, index.index(), &mut copy, keep)?;
    close_hint(volume)?;
    match switch(volume, numbers, copy) {
        Ok(switched) => Ok(switched),
        Err(StoreFault) => Err(StoreError::StoreFault),
    }
}
