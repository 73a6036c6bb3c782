//! What is asked of the file in Main is answered.

ghost use Rattle.std.specs.Prelude.{◌≡◌, ◌≤◌, None, false};
ghost use Rattle.file_store.specs.Hinting.{HasHonestHint, LeavesHonest};
ghost use Rattle.fs_recovery.specs.Opens.{IsNoList};
ghost use Rattle.zb_volume.specs.declared.areas.Area.TheVariants.{Main};
ghost use Rattle.zb_volume.specs.Disk.{IsSettled, seen};
ghost use Rattle.zodb_top.specs.Asked.{AskSays};
ghost use Rattle.zodb_top.specs.Asking.{AnswerSays, LeavesStore, StoreAnswers};
ghost use Rattle.zodb_top.specs.Opened.{IsLeft};
ghost use Rattle.zodb_top.specs.Outside.{outside};

use crate::asking::{AskError, store_lines};
use crate::saying::say_unopened;
use file_store::FileStore;
use program_words::Asked;
use script_runs::{Status, cut_lines, write_behind, write_both};
use std::alloc::Global;
use zb_ids::{ListOf, Text8};
use zb_model::Store;
use zb_outside::{Clock, Failed, Sink};
use zb_volume::Volume;

/// Writes an answer behind some lines. It takes no memory, so that a failed read is told where there is none.
fn write_answer<K: Sink>(
    lines: &[Text8],
    answer: Result<ListOf<Text8>, AskError>,
    sink: &mut K,
) -> Status
    ensures says { AnswerSays result lines.now answer (K.taken sink.old) (K.taken sink.new) (K.faults sink.old) (K.faults sink.new) }
    ensures counted { K.faults sink.old ≤ K.faults sink.new }
{
    match answer {
        Ok(more) => match write_both(sink, lines, more.as_slice()) {
            Ok(()) => Status::Done,
            Err(Failed) => Status::SinkFault,
        },
        Err(AskError::ReadFault) => match write_behind(sink, lines, b"refused ReadFault\n") {
            Ok(()) => Status::Done,
            Err(Failed) => Status::SinkFault,
        },
        Err(AskError::Memory) => Status::NoMemory,
    }
}

/// Answers what is asked of a store, behind the line of a tail that was cut off, where one was, and hands
/// it back.
fn answer_store<St: Store, K: Sink, C: Clock>(
    alloc: Global,
    store: St,
    cut: Option<u64>,
    asked: Asked,
    sink: &mut K,
    clock: &mut C,
) -> (Status, St)
    requires whole { (St.state store).broken ≡ false }
    requires free { (St.state store).voted ≡ None }
    ensures says { StoreAnswers result.0 asked St.told cut (K.taken sink.old) (K.taken sink.new) (K.faults sink.old) (K.faults sink.new) (St.state store) (St.state result.1) }
    ensures leaves { LeavesStore St.told St.lasts St.stands (St.state store) (St.state result.1)
        (C.stamps clock.old) (C.stamps clock.new) }
    ensures counted { K.faults sink.old ≤ K.faults sink.new }
{
    let Ok(lines) = cut_lines(alloc, cut) else {
        return (Status::NoMemory, store);
    };
    let (answer, store) = store_lines(alloc, store, asked, clock);
    (write_answer(lines.as_slice(), answer, sink), store)
}

/// Opens the file in Main, which is made first where Main is empty, and answers what is asked of it.
pub(crate) fn answer_file<K: Sink, V: Volume + Drop, C: Clock>(
    alloc: Global,
    asked: Asked,
    sink: &mut K,
    volume: V,
    clock: &mut C,
) -> (Status, V)
    requires { V.told → HasHonestHint (V.state volume).log }
    ensures outcome { AskSays result.0 asked V.told
        (outside (K.taken sink.old) (K.faults sink.old) (C.stamps clock.old) (V.state volume))
        (outside (K.taken sink.new) (K.faults sink.new) (C.stamps clock.new) (V.state result.1)) }
    ensures left { V.told → IsLeft V.told
        (outside (K.taken sink.old) (K.faults sink.old) (C.stamps clock.old) (V.state volume))
        (outside (K.taken sink.new) (K.faults sink.new) (C.stamps clock.new) (V.state result.1)) }
    ensures harmed { V.told → IsNoList (seen (V.state volume).log Main) → (V.state result.1).log ≡ (V.state volume).log }
    ensures hint { V.told → IsSettled (V.state volume).log Main → LeavesHonest (V.state result.1).log }
    ensures others { ¬ (result.0 ≡ Status.StoreFault) → (V.state result.1).write_faults ≡ (V.state volume).write_faults }
    ensures sink_counted { K.faults sink.old ≤ K.faults sink.new }
    ensures read_counted { (V.state volume).read_faults ≤ (V.state result.1).read_faults }
    ensures counted { (V.state volume).write_faults ≤ (V.state result.1).write_faults }
{
    match FileStore::create_or_open(alloc, volume, clock) {
        Ok((store, cut)) => {
            let (status, store) = answer_store(alloc, store, cut, asked, sink, clock);
            (status, store.into_volume())
        }
        Err((error, volume)) => (say_unopened(alloc, sink, error), volume),
    }
}
