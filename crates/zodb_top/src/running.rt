//! The turns of a script over the file in Main.

ghost use Rattle.std.specs.Prelude.{◌≡◌, ◌≢◌, ◌≤◌, ℕ, List, [], Option, false};
ghost use Rattle.std.specs.List.{AllByRecursion};
ghost use Rattle.file_store.specs.Hinting.{HasHonestHint, LeavesHonest};
ghost use Rattle.fs_records.specs.File.{StandsFor};
ghost use Rattle.fs_recovery.specs.Opens.{IsNoList};
ghost use Rattle.zb_base.specs.Counts.{Rose};
ghost use Rattle.zb_model.specs.declared.data.Transaction.{Transaction};
ghost use Rattle.zb_volume.specs.declared.areas.Area.TheVariants.{Main, Side};
ghost use Rattle.zb_volume.specs.Images.{CrashLeaves};
ghost use Rattle.zb_volume.specs.Moments.{StaysAs};
ghost use Rattle.zb_volume.specs.Disk.{IsSettled, seen};
ghost use Rattle.client_turns.specs.Refusing.{IsFittingLine};
ghost use Rattle.script_runs.specs.Outcomes.{IsUnlessMemory, has_pack};
ghost use Rattle.zodb_top.specs.Outside.{outside};
ghost use Rattle.zodb_top.specs.Running.{FileSays};

use crate::saying::say_unopened;
use file_store::FileStore;
use script_runs::{Manner, Status, take_over_store};
use std::alloc::Global;
use std::sync::Wait;
use std::thread::Threads;
use zb_outside::{Clock, Sink};
use zb_script::Turn;
use zb_volume::Volume;

/// The law that what Main reads is among what a crash leaves of it.
pub(crate) fn is_left<V: Volume>(volume: &V)
    ensures left { V.told → CrashLeaves (V.state volume.now).log Main (seen (V.state volume.now).log Main) }
{}

/// Opens the file in Main, which is made first where Main is empty, and takes the turns over it in this
/// manner.
#[tactic(auto, using(crate::proofs::Sides::over_file))]
pub(crate) fn run_file<K: Sink, V: Volume + Drop + Send, C: Clock + Send, R: Threads + Wait + Sync>(
    rt: &R,
    alloc: Global,
    manner: Manner,
    turns: &[Turn],
    sink: &mut K,
    volume: V,
    clock: &mut C,
) -> (Status, V)
    requires fitting { AllByRecursion (λ t. IsFittingLine t.line) turns.now }
    requires honest { V.told → HasHonestHint (V.state volume).log }
    ensures outcome { FileSays manner result.0 V.told turns.now
        (outside (K.taken sink.old) (K.faults sink.old) (C.stamps clock.old) (V.state volume))
        (outside (K.taken sink.new) (K.faults sink.new) (C.stamps clock.new) (V.state result.1)) }
    ensures complete { V.told → ¬ Rose (V.state volume).read_faults (V.state result.1).read_faults → ¬ Rose (V.state volume).write_faults (V.state result.1).write_faults → ¬ Rose (K.faults sink.old) (K.faults sink.new)
        → (list : List Transaction) (cut : Option ℕ) → StandsFor (seen (V.state volume).log Main) list cut → IsUnlessMemory result.0 Status.Done }
    ensures damaged { V.told → ¬ Rose (V.state volume).read_faults (V.state result.1).read_faults → ¬ Rose (V.state volume).write_faults (V.state result.1).write_faults
        → IsNoList (seen (V.state volume).log Main) → IsUnlessMemory result.0 Status.Damaged }
    ensures harmed { V.told → IsNoList (seen (V.state volume).log Main) → (V.state result.1).log ≡ (V.state volume).log }
    ensures hint { V.told → IsSettled (V.state volume).log Main → LeavesHonest (V.state result.1).log }
    ensures others { ¬ (result.0 ≡ Status.StoreFault) → (V.state result.1).write_faults ≡ (V.state volume).write_faults }
    ensures side { V.told → has_pack turns.now ≡ false → seen (V.state volume).log Main ≢ [] → StaysAs Side (V.state volume).log (V.state result.1).log }
    ensures sink_counted { K.faults sink.old ≤ K.faults sink.new }
    ensures read_counted { (V.state volume).read_faults ≤ (V.state result.1).read_faults }
    ensures counted { (V.state volume).write_faults ≤ (V.state result.1).write_faults }
{
    match FileStore::create_or_open(alloc, volume, clock) {
        Ok((store, cut)) => {
            let (status, store) = take_over_store(
                rt, alloc, manner, store, cut, turns, sink, clock,
            );
            let volume = store.into_volume();
            is_left(&volume);
            (status, volume)
        }
        Err((error, volume)) => (say_unopened(alloc, sink, error), volume),
    }
}
