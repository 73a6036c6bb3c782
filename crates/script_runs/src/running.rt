//! The turns of a script over a store.

ghost use Rattle.std.specs.Prelude.{◌≡◌, ◌≤◌, None, false};
ghost use Rattle.std.specs.List.{AllByRecursion};
ghost use Rattle.zb_base.specs.Counts.{Rose};
ghost use Rattle.zb_volume.specs.declared.areas.Area.TheVariants.{Side};
ghost use Rattle.zb_volume.specs.Moments.{StaysAs};
ghost use Rattle.client_turns.specs.Refusing.{IsFittingLine};
ghost use Rattle.script_runs.specs.Came.{began};
ghost use Rattle.script_runs.specs.Outcomes.{IsUnlessMemory, has_pack};
ghost use Rattle.script_runs.specs.Running.{SaysStopped, StoreSays, TakenSays};

use crate::manner::Manner;
use crate::playing::{NoGate, play_over_store};
use crate::replying::{RunError, take_turns};
use crate::saying::{cut_lines, say, write_lines};
use crate::status::Status;
use client_turns::{Clients, TurnError, last_turns};
use std::alloc::Global;
use std::sync::Wait;
use std::thread::Threads;
use zb_model::Store;
use zb_outside::{Clock, Failed, Sink};
use zb_resolve::{StockRefs, StockResolver};
use zb_script::Turn;
use zeo_server::Workers;

/// Says why a run stopped, where that has a line.
pub(crate) fn say_stopped<K: Sink>(sink: &mut K, error: RunError) -> Status
    ensures said { SaysStopped error result (K.taken sink.old) (K.taken sink.new) (K.faults sink.old) (K.faults sink.new) }
    ensures counted { K.faults sink.old ≤ K.faults sink.new }
{
    match error {
        RunError::Turn(TurnError::StoreFault) => say(sink, b"store fault\n", Status::StoreFault),
        RunError::Turn(TurnError::Memory) => Status::NoMemory,
        RunError::Memory => Status::NoMemory,
        RunError::SinkFault => Status::SinkFault,
    }
}

/// Runs the turns of a script over any store, as `run` does over that of a file: writes the line of the
/// tail that was cut off at the place `cut`, where one was, takes the turns one at a time with the program's
/// own rules of merging and references, writes the reply to each before the next one is taken, and hands
/// the store back.
///
/// The status is `Done` where all turns were answered and all was written; `StoreFault` where the store
/// failed in a turn, with a line that says so behind the replies; `SinkFault` or `NoMemory` where the run
/// ended early for that. The store then has what the turns up to there made of it.
#[tactic(auto, using(zb_model::specs::StayLaws::stays_same, crate::proofs::Sides::ran_over))]
pub fn run_over_store<St: Store, K: Sink, C: Clock>(
    alloc: Global,
    store: St,
    cut: Option<u64>,
    turns: &[Turn],
    sink: &mut K,
    clock: &mut C,
) -> (Status, St)
    requires whole { (St.state store).broken ≡ false }
    requires free { (St.state store).voted ≡ None }
    requires fitting { AllByRecursion (λ t. IsFittingLine t.line) turns.now }
    ensures outcome { StoreSays result.0 St.told St.lasts St.stands
        (began (St.state store).list (C.stamps clock.old) (St.state store).read_faults (St.state store).faults) cut turns.now
        (K.taken sink.old) (K.taken sink.new) (K.faults sink.old) (K.faults sink.new) (St.state store) (St.state result.1) (C.stamps clock.new) }
    ensures complete { ¬ Rose (St.state store).faults (St.state result.1).faults → ¬ Rose (K.faults sink.old) (K.faults sink.new) → IsUnlessMemory result.0 Status.Done }
    ensures others { ¬ (result.0 ≡ Status.StoreFault) → (St.state result.1).faults ≡ (St.state store).faults }
    ensures side { St.lasts → has_pack turns.now ≡ false → StaysAs Side (St.state store).log (St.state result.1).log }
    ensures sink_counted { K.faults sink.old ≤ K.faults sink.new }
    ensures read_counted { (St.state store).read_faults ≤ (St.state result.1).read_faults }
    ensures counted { (St.state store).faults ≤ (St.state result.1).faults }
{
    let Ok(lines) = cut_lines(alloc, cut) else {
        return (Status::NoMemory, store);
    };
    let Ok(last) = last_turns(alloc, turns) else {
        return (Status::NoMemory, store);
    };
    match write_lines(sink, lines.as_slice()) {
        Ok(()) => {}
        Err(Failed) => return (Status::SinkFault, store),
    }
    let mut clients = Clients::new(alloc, store, StockResolver, StockRefs);
    let ran = take_turns(alloc, &mut clients, turns, last.as_slice(), sink, clock);
    let store = clients.into_store();
    match ran {
        Ok(()) => (Status::Done, store),
        Err(error) => (say_stopped(sink, error), store),
    }
}

/// Takes the turns of a script over any store in this manner: by `run_over_store`, or by `play_over_store` with no
/// gate.
pub fn take_over_store<St: Store + Send, K: Sink, C: Clock + Send, R: Threads + Wait + Sync>(
    rt: &R,
    alloc: Global,
    manner: Manner,
    store: St,
    cut: Option<u64>,
    turns: &[Turn],
    sink: &mut K,
    clock: &mut C,
) -> (Status, St)
    requires whole { (St.state store).broken ≡ false }
    requires free { (St.state store).voted ≡ None }
    requires fitting { AllByRecursion (λ t. IsFittingLine t.line) turns.now }
    ensures outcome { TakenSays manner result.0 St.told St.lasts St.stands
        (began (St.state store).list (C.stamps clock.old) (St.state store).read_faults (St.state store).faults) cut turns.now
        (K.taken sink.old) (K.taken sink.new) (K.faults sink.old) (K.faults sink.new) (St.state store) (St.state result.1) (C.stamps clock.new) }
    ensures complete { ¬ Rose (St.state store).faults (St.state result.1).faults → ¬ Rose (K.faults sink.old) (K.faults sink.new) → IsUnlessMemory result.0 Status.Done }
    ensures others { ¬ (result.0 ≡ Status.StoreFault) → (St.state result.1).faults ≡ (St.state store).faults }
    ensures side { St.lasts → has_pack turns.now ≡ false → StaysAs Side (St.state store).log (St.state result.1).log }
    ensures sink_counted { K.faults sink.old ≤ K.faults sink.new }
    ensures read_counted { (St.state store).read_faults ≤ (St.state result.1).read_faults }
    ensures counted { (St.state store).faults ≤ (St.state result.1).faults }
{
    match manner {
        Manner::InTurn => run_over_store(alloc, store, cut, turns, sink, clock),
        Manner::SideBySide => {
            let workers = Workers::new(NoGate);
            play_over_store(rt, alloc, &workers, store, cut, turns, sink, clock)
        }
    }
}
