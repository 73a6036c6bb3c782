//! A script that is made from a number, over the file in Main.

ghost use Rattle.std.specs.Prelude.{◌≡◌, ◌≢◌, ◌<◌, ◌≤◌, ℕ, List, [], Option};
ghost use Rattle.file_store.specs.Hinting.{HasHonestHint, LeavesHonest};
ghost use Rattle.fs_records.specs.File.{StandsFor};
ghost use Rattle.fs_recovery.specs.Opens.{IsNoList};
ghost use Rattle.zb_base.specs.Counts.{Rose};
ghost use Rattle.zb_model.specs.declared.data.Transaction.{Transaction};
ghost use Rattle.zb_volume.specs.declared.areas.Area.TheVariants.{Main, Side};
ghost use Rattle.zb_volume.specs.Moments.{StaysAs};
ghost use Rattle.zb_volume.specs.Disk.{IsSettled, seen};
ghost use Rattle.script_runs.specs.Outcomes.{IsUnlessMemory};
ghost use Rattle.zodb_top.specs.Made.{GenSays};
ghost use Rattle.zodb_top.specs.Outside.{outside};

use crate::running::is_left;
use crate::saying::say_unopened;
use file_store::FileStore;
use script_runs::{Status, gen_over_store};
use std::alloc::Global;
use zb_outside::{Clock, Sink};
use zb_volume::Volume;

/// Opens the file in Main, which is made first where Main is empty, and runs the script that is
/// made of so many rounds over it.
#[tactic(auto, using(crate::proofs::Sides::over_file))]
pub(crate) fn gen_file<K: Sink, V: Volume + Drop, C: Clock>(
    alloc: Global,
    rounds: u64,
    sink: &mut K,
    volume: V,
    clock: &mut C,
) -> (Status, V)
    requires rounds { rounds ≤ 8000 }
    requires honest { V.told → HasHonestHint (V.state volume).log }
    ensures outcome { GenSays result.0 rounds V.told
        (outside (K.taken sink.old) (K.faults sink.old) (C.stamps clock.old) (V.state volume))
        (outside (K.taken sink.new) (K.faults sink.new) (C.stamps clock.new) (V.state result.1)) }
    ensures complete { V.told → ¬ Rose (V.state volume).read_faults (V.state result.1).read_faults → ¬ Rose (V.state volume).write_faults (V.state result.1).write_faults → ¬ Rose (K.faults sink.old) (K.faults sink.new)
        → (list : List Transaction) (cut : Option ℕ) → StandsFor (seen (V.state volume).log Main) list cut → IsUnlessMemory result.0 Status.Done }
    ensures damaged { V.told → ¬ Rose (V.state volume).read_faults (V.state result.1).read_faults → ¬ Rose (V.state volume).write_faults (V.state result.1).write_faults
        → IsNoList (seen (V.state volume).log Main) → IsUnlessMemory result.0 Status.Damaged }
    ensures harmed { V.told → IsNoList (seen (V.state volume).log Main) → (V.state result.1).log ≡ (V.state volume).log }
    ensures hint { V.told → IsSettled (V.state volume).log Main → LeavesHonest (V.state result.1).log }
    ensures others { ¬ (result.0 ≡ Status.StoreFault) → (V.state result.1).write_faults ≡ (V.state volume).write_faults }
    ensures side { V.told → rounds < 100 → seen (V.state volume).log Main ≢ [] → StaysAs Side (V.state volume).log (V.state result.1).log }
    ensures sink_counted { K.faults sink.old ≤ K.faults sink.new }
    ensures read_counted { (V.state volume).read_faults ≤ (V.state result.1).read_faults }
    ensures counted { (V.state volume).write_faults ≤ (V.state result.1).write_faults }
{
    match FileStore::create_or_open(alloc, volume, clock) {
        Ok((store, cut)) => {
            let (status, store) = gen_over_store(alloc, store, cut, rounds, sink, clock);
            let volume = store.into_volume();
            is_left(&volume);
            (status, volume)
        }
        Err((error, volume)) => (say_unopened(alloc, sink, error), volume),
    }
}
