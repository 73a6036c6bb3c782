//! The script that the source has.

ghost use Rattle.std.specs.Prelude.{◌≡◌, ◌≢◌, ◌≤◌, ◌+◌, ℕ, List, [], None, Option, Some, IfErr, IfOk, IfSome, IsErr, IsTrue, OnOk, length};
ghost use Rattle.std.specs.List.{AllByRecursion};
ghost use Rattle.std.specs.Io.KnownBytes.{Consumes, IsAtEnd};
ghost use Rattle.file_store.specs.Hinting.{HasHonestHint, LeavesHonest};
ghost use Rattle.fs_records.specs.File.{StandsFor};
ghost use Rattle.fs_recovery.specs.Opens.{IsNoList};
ghost use Rattle.zb_base.specs.Counts.{Rose};
ghost use Rattle.zb_model.specs.declared.data.Transaction.{Transaction};
ghost use Rattle.zb_script.specs.declared.limits.Limit.{Limit as WhichLimit};
ghost use Rattle.zb_script.specs.declared.line.Turn.{Turn};
ghost use Rattle.zb_script.specs.Limits.{first_limit};
ghost use Rattle.zb_script.specs.Script.{IsBadLine, IsScript};
ghost use Rattle.zb_volume.specs.declared.areas.Area.TheVariants.{Main, Side};
ghost use Rattle.zb_volume.specs.Moments.{StaysAs};
ghost use Rattle.zb_volume.specs.Disk.{IsSettled, seen};
ghost use Rattle.client_turns.specs.Refusing.{IsFittingLine};
ghost use Rattle.zodb_top.specs.Inputs.{InputSays, SaysBadLine, SaysLimit, most_bytes};
ghost use Rattle.zodb_top.specs.Outside.{outside};
ghost use Rattle.zodb_top.specs.Program.{IsInput, PacksNothing, ReadsToEnd, RunSays};
ghost use Rattle.script_runs.specs.Outcomes.{IsUnlessMemory};

use crate::running::run_file;
use crate::saying::{bad_line_text, limit_text};
use script_runs::{Manner, Status, say};
use std::alloc::Global;
use std::sync::Wait;
use std::thread::Threads;
use zb_ids::ListOf;
use zb_outside::{Clock, ReadAllError, Sink, Source, read_all};
use zb_script::{Limit, ScriptError, Turn, read_script};
use zb_volume::Volume;

/// How many bytes a script has at most: 64 MiB.
pub const MOST_BYTES: usize = 67_108_864;

/// Writes the line of a limit that is passed.
fn say_limit<K: Sink>(alloc: Global, sink: &mut K, limit: Limit) -> Status
    ensures said { SaysLimit limit result (K.taken sink.old) (K.taken sink.new) (K.faults sink.old) (K.faults sink.new) }
    ensures counted { K.faults sink.old ≤ K.faults sink.new }
{
    match limit_text(alloc, limit) {
        Ok(text) => say(sink, text.as_slice(), Status::Limit),
        Err(_) => Status::NoMemory,
    }
}

/// Writes the line of a bad line.
fn say_bad_line<K: Sink>(alloc: Global, sink: &mut K, number: u64) -> Status
    ensures said { SaysBadLine number result (K.taken sink.old) (K.taken sink.new) (K.faults sink.old) (K.faults sink.new) }
    ensures counted { K.faults sink.old ≤ K.faults sink.new }
{
    match bad_line_text(alloc, number) {
        Ok(text) => say(sink, text.as_slice(), Status::BadLine),
        Err(_) => Status::NoMemory,
    }
}

/// The turns of a script's bytes. Where they are no script, or pass one of its limits, the line that says
/// so is written, and its status answered: `BadLine`, `Limit`, or `NoMemory`, with nothing written.
pub fn turns_of<K: Sink>(alloc: Global, input: &[u8], sink: &mut K) -> Result<ListOf<Turn>, Status>
    ensures script { IfOk result (λ turns. IsInput input.now turns) }
    ensures fitting { IfOk result (λ turns. AllByRecursion (λ t. IsFittingLine t.line) turns) }
    ensures silent { OnOk result (K.taken sink.new ≡ K.taken sink.old) }
    ensures still { OnOk result (K.faults sink.new ≡ K.faults sink.old) }
    ensures outcome { IfErr result (λ status. InputSays status input.now (K.taken sink.old) (K.taken sink.new) (K.faults sink.old) (K.faults sink.new)) }
    ensures complete { (turns : List Turn) → IsInput input.now turns → IfErr result (λ status. status ≡ Status.NoMemory) }
    ensures bad_line { (n : ℕ) → first_limit input.now ≡ None → IsBadLine input.now n → IfErr result (λ status. IsUnlessMemory status Status.BadLine) }
    ensures bad { (n : ℕ) → first_limit input.now ≡ None → IsBadLine input.now n → IsErr result }
    ensures limit { (l : WhichLimit) → first_limit input.now ≡ Some l → IfErr result (λ status. IsUnlessMemory status Status.Limit) }
    ensures limited { (l : WhichLimit) → first_limit input.now ≡ Some l → IsErr result }
    ensures counted { K.faults sink.old ≤ K.faults sink.new }
{
    match read_script(alloc, input) {
        Ok(turns) => Ok(turns),
        Err(ScriptError::Memory) => Err(Status::NoMemory),
        Err(ScriptError::Limit(limit)) => Err(say_limit(alloc, sink, limit)),
        Err(ScriptError::BadLine { number }) => Err(say_bad_line(alloc, sink, number)),
    }
}

/// Reads the script that the source has, to its end or past its limit, and runs it over the file in
/// Main, in this manner.
#[tactic(auto, using(zb_model::specs::StayLaws::stays_same, crate::proofs::Sources::limit_unread, crate::proofs::Sources::fault_unread, crate::proofs::Untouched::still_honest))]
pub(crate) fn run_source<
    S: Source,
    K: Sink,
    V: Volume + Drop + Send,
    C: Clock + Send,
    R: Threads + Wait + Sync,
>(
    rt: &R,
    alloc: Global,
    manner: Manner,
    source: &mut S,
    sink: &mut K,
    volume: V,
    clock: &mut C,
) -> (Status, V)
    requires { V.told → HasHonestHint (V.state volume).log }
    ensures outcome { RunSays manner result.0 V.told (Rose (S.faults source.old) (S.faults source.new)) (S.left source.old)
        (outside (K.taken sink.old) (K.faults sink.old) (C.stamps clock.old) (V.state volume))
        (outside (K.taken sink.new) (K.faults sink.new) (C.stamps clock.new) (V.state result.1)) }
    ensures at_end { ReadsToEnd result.0 (S.left source.old) → IsAtEnd (S.left source.new) }
    ensures taken { (bytes : List ℕ) × Consumes (S.left source.old) (S.left source.new) bytes × (length bytes ≤ most_bytes + 1) }
    ensures complete { V.told → IfSome (S.left source.old) (λ input. (turns : List Turn) (list : List Transaction) (cut : Option ℕ) → IsInput input turns → StandsFor (seen (V.state volume).log Main) list cut
        → ¬ Rose (S.faults source.old) (S.faults source.new) → ¬ Rose (K.faults sink.old) (K.faults sink.new)
        → ¬ Rose (V.state volume).read_faults (V.state result.1).read_faults → ¬ Rose (V.state volume).write_faults (V.state result.1).write_faults → IsUnlessMemory result.0 Status.Done) }
    ensures damaged { V.told → IfSome (S.left source.old) (λ input. (turns : List Turn) → IsInput input turns → IsNoList (seen (V.state volume).log Main)
        → ¬ Rose (S.faults source.old) (S.faults source.new)
        → ¬ Rose (V.state volume).read_faults (V.state result.1).read_faults → ¬ Rose (V.state volume).write_faults (V.state result.1).write_faults → IsUnlessMemory result.0 Status.Damaged) }
    ensures bad_line { IfSome (S.left source.old) (λ input. (n : ℕ) → first_limit input ≡ None → IsBadLine input n
        → ¬ Rose (S.faults source.old) (S.faults source.new) → IsUnlessMemory result.0 Status.BadLine) }
    ensures limit { IfSome (S.left source.old) (λ input. (l : WhichLimit) → first_limit input ≡ Some l
        → ¬ Rose (S.faults source.old) (S.faults source.new) → IsUnlessMemory result.0 Status.Limit) }
    ensures harmed { V.told → IsNoList (seen (V.state volume).log Main) → (V.state result.1).log ≡ (V.state volume).log }
    ensures hint { V.told → IsSettled (V.state volume).log Main → LeavesHonest (V.state result.1).log }
    ensures others { ¬ (result.0 ≡ Status.StoreFault) → (V.state result.1).write_faults ≡ (V.state volume).write_faults }
    ensures side { V.told → PacksNothing (S.left source.old) → seen (V.state volume).log Main ≢ [] → StaysAs Side (V.state volume).log (V.state result.1).log }
    ensures source_counted { S.faults source.old ≤ S.faults source.new }
    ensures sink_counted { K.faults sink.old ≤ K.faults sink.new }
    ensures read_counted { (V.state volume).read_faults ≤ (V.state result.1).read_faults }
    ensures counted { (V.state volume).write_faults ≤ (V.state result.1).write_faults }
{
    let input = match read_all(alloc, source, MOST_BYTES) {
        Ok(input) => input,
        Err(ReadAllError::Memory) => return (Status::NoMemory, volume),
        Err(ReadAllError::Fault) => {
            let status = say(sink, b"read fault\n", Status::SourceFault);
            return (status, volume);
        }
        Err(ReadAllError::TooLong) => {
            let status = say_limit(alloc, sink, Limit::Bytes);
            return (status, volume);
        }
    };
    match turns_of(alloc, input.as_slice(), sink) {
        Ok(turns) => run_file(rt, alloc, manner, turns.as_slice(), sink, volume, clock),
        Err(status) => (status, volume),
    }
}
