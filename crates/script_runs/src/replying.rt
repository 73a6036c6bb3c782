//! The turns of a script, one after another, and their replies.

ghost use Rattle.std.specs.Prelude.{◌≡◌, ◌<◌, ◌≤◌, [], Some, false, length, slice_get, IfErr, IsErrOf, OnOk};
ghost use Rattle.std.specs.List.{AllByRecursion};
ghost use Rattle.std.specs.Io.KnownBytes.{Appends};
ghost use Rattle.zb_base.specs.Counts.{Rose};
ghost use Rattle.zb_volume.specs.declared.areas.Area.TheVariants.{Main, Side};
ghost use Rattle.zb_volume.specs.Moments.{Leaves, LeavesOnly, StaysAs};
ghost use Rattle.client_turns.specs.declared.errors.TurnError.TheVariants.{StoreFault};
ghost use Rattle.client_turns.specs.Clients.{Moment};
ghost use Rattle.client_turns.specs.Output.{flagged, last_flags};
ghost use Rattle.client_turns.specs.Refusing.{IsFittingLine};
ghost use Rattle.client_turns.specs.Standing.{IsListIn, LeadsTo, StandsForMoment, packs_list};
ghost use Rattle.side_by_side.specs.Runs.{stock};
ghost use Rattle.script_runs.specs.Outcomes.{has_pack};
ghost use Rattle.script_runs.specs.Running.{IsReplied, IsStopped, RunsOn, Stops, broke_of};

use crate::saying::write_lines;
use client_turns::{Clients, TurnError};
use std::alloc::Global;
use zb_answers::answer_lines;
use zb_model::Store;
use zb_outside::{Clock, Failed, Sink};
use zb_resolve::{StockRefs, StockResolver};
use zb_script::Turn;

/// Why a run ended before its last turn.
#[derive(Clone, Copy, Debug, PartialEq, Eq)]
pub(crate) enum RunError {
    /// A turn broke off.
    Turn(
        /// Why.
        TurnError,
    ),
    /// There is no memory for the reply to a turn that was taken.
    Memory,
    /// A reply could not be written.
    SinkFault,
}

/// Takes a turn and writes its reply, each line by a write of its own.
#[tactic(auto, using(crate::proofs::Replies::replied, crate::proofs::Replies::unanswered, crate::proofs::Nexts::answered_others, crate::proofs::Nexts::broken_others))]
fn reply<St: Store, K: Sink, C: Clock>(
    alloc: Global,
    clients: &mut Clients<St, StockResolver, StockRefs>,
    turn: &Turn,
    is_last: bool,
    sink: &mut K,
    clock: &mut C,
) -> Result<(), RunError>
    requires fitting { IsFittingLine turn.now.line }
    ensures ok { St.told → (m : Moment) → StandsForMoment clients.old (C.stamps clock.old) m → OnOk result
        (LeadsTo (IsReplied (Appends (K.taken sink.old) (K.taken sink.new)) m turn.now is_last) clients.new (C.stamps clock.new)) }
    ensures err { St.told → (m : Moment) → StandsForMoment clients.old (C.stamps clock.old) m → IfErr result (λ e.
        LeadsTo (IsStopped e m turn.now is_last (K.taken sink.old) (K.taken sink.new)) clients.new (C.stamps clock.new)) }
    ensures moments { St.lasts → St.told → clients.old.hub.store.broken ≡ false → (m : Moment) → StandsForMoment clients.old (C.stamps clock.old) m →
        LeavesOnly Main (IsListIn St.stands stock m turn.now) clients.old.hub.store.log clients.new.hub.store.log }
    ensures side { St.lasts → packs_list turn.now.line ≡ false → StaysAs Side clients.old.hub.store.log clients.new.hub.store.log }
    ensures sink_failed { IsErrOf result RunError.SinkFault → Rose (K.faults sink.old) (K.faults sink.new) }
    ensures store_failed { IsErrOf result (RunError.Turn StoreFault) → Rose clients.old.hub.store.faults clients.new.hub.store.faults }
    ensures others { ¬ IsErrOf result (RunError.Turn StoreFault) → clients.new.hub.store.faults ≡ clients.old.hub.store.faults }
    ensures sink_counted { K.faults sink.old ≤ K.faults sink.new }
    ensures read_counted { clients.old.hub.store.read_faults ≤ clients.new.hub.store.read_faults }
    ensures counted { clients.old.hub.store.faults ≤ clients.new.hub.store.faults }
{
    let answer = match clients.take_turn(alloc, turn, is_last, clock) {
        Ok(answer) => answer,
        Err(why) => return Err(RunError::Turn(why)),
    };
    let Ok(lines) = answer_lines(alloc, &turn.client, &answer) else {
        return Err(RunError::Memory);
    };
    match write_lines(sink, lines.as_slice()) {
        Ok(()) => Ok(()),
        Err(Failed) => Err(RunError::SinkFault),
    }
}

/// The flag at a place.
fn flag_at(flags: &[bool], at: usize) -> bool
    requires { at < length flags.now }
    ensures { slice_get flags.now at ≡ Some result }
{
    flags[at]
}

/// Takes the turns in their order, each behind the reply of the one before it. `last` says of each whether
/// it is its client's last.
pub(crate) fn take_turns<St: Store, K: Sink, C: Clock>(
    alloc: Global,
    clients: &mut Clients<St, StockResolver, StockRefs>,
    turns: &[Turn],
    last: &[bool],
    sink: &mut K,
    clock: &mut C,
) -> Result<(), RunError>
    requires fitting { AllByRecursion (λ t. IsFittingLine t.line) turns.now }
    requires flags { last.now ≡ last_flags turns.now }
    requires lasting { St.lasts → Leaves Main (λ bytes. St.stands bytes clients.old.hub.store.list) clients.old.hub.store.log }
    ensures ok { St.told → (m : Moment) → StandsForMoment clients.old (C.stamps clock.old) m → m.machine.failed ≡ false → OnOk result
        (RunsOn St.lasts St.stands m (flagged turns.now) [] (K.taken sink.old) (K.taken sink.new) clients.old.hub.store.log clients.new (C.stamps clock.new)) }
    ensures err { St.told → (m : Moment) → StandsForMoment clients.old (C.stamps clock.old) m → m.machine.failed ≡ false → IfErr result (λ e.
        Stops St.lasts St.stands (broke_of e) m turns.now (K.taken sink.old) (K.taken sink.new) clients.old.hub.store.log clients.new (C.stamps clock.new)) }
    ensures side { St.lasts → has_pack turns.now ≡ false → StaysAs Side clients.old.hub.store.log clients.new.hub.store.log }
    ensures sink_failed { IsErrOf result RunError.SinkFault → Rose (K.faults sink.old) (K.faults sink.new) }
    ensures store_failed { IsErrOf result (RunError.Turn StoreFault) → Rose clients.old.hub.store.faults clients.new.hub.store.faults }
    ensures others { ¬ IsErrOf result (RunError.Turn StoreFault) → clients.new.hub.store.faults ≡ clients.old.hub.store.faults }
    ensures sink_counted { K.faults sink.old ≤ K.faults sink.new }
    ensures read_counted { clients.old.hub.store.read_faults ≤ clients.new.hub.store.read_faults }
    ensures counted { clients.old.hub.store.faults ≤ clients.new.hub.store.faults }
{
    for (at, turn) in turns.iter().enumerate() {
        let is_last = flag_at(last, at);
        match reply(alloc, clients, turn, is_last, sink, clock) {
            Ok(()) => {}
            Err(error) => return Err(error),
        }
    }
    Ok(())
}
