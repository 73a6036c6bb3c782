//! A copy is begun.

ghost use Rattle.std.specs.Prelude.{◌≡◌, [], IfOk, OnOk};
ghost use Rattle.zb_volume.specs.declared.areas.Area.{Area};
ghost use Rattle.zb_volume.specs.Disk.{seen};
ghost use Rattle.zb_volume.specs.Moments.{StaysAs};
ghost use Rattle.fs_records.specs.Listed.{listed};
ghost use Rattle.pack_copy.specs.Copying.{IsCopied};
ghost use Rattle.zb_volume.specs.States.{OnlyWrites};

use crate::state::CopyState;
use fs_index::Index;
use fs_recovery::Numbers;
use std::alloc::Global;
use zb_ids::Tid;
use zb_volume::{Area, StoreFault, Volume};

/// The four bytes that a file begins with.
const MAGIC: &[u8; 4] = b"FS30";

/// Begins a copy of Main's list, packed up to a tid: whatever stood on Side, it is then a file of no
/// transactions. It takes no memory. After a fault Side may hold anything; Main is as it was at every
/// moment.
pub fn begin<V: Volume>(alloc: Global, volume: &mut V, tid: Tid) -> Result<CopyState, StoreFault>
    ensures copied { V.told
        → IfOk result (λ c. IsCopied (seen (V.state volume.new).log Area.Side) c) }
    ensures empty { V.told → OnOk result (listed (seen (V.state volume.new).log Area.Side) ≡ []) }
    ensures tid { IfOk result (λ c. c.tid ≡ tid) }
    ensures main { V.told → StaysAs Area.Main (V.state volume.old).log (V.state volume.new).log }
    ensures hint { V.told → StaysAs Area.Hint (V.state volume.old).log (V.state volume.new).log }
    ensures write { OnlyWrites (V.state volume.old) (V.state volume.new) result }
{
    volume.cut(Area::Side, 0)?;
    volume.write_at(Area::Side, 0, MAGIC)?;
    Ok(CopyState {
        tid,
        index: Index::new(alloc),
        numbers: Numbers::new(alloc),
        end: MAGIC.len() as u64,
    })
}
