//! Records of which the states are merged.

ghost use Rattle.std.specs.Prelude.{◌≡◌, true, false, IfOk, IfErr, OnOk};
ghost use Rattle.bucket_state.specs.declared.error.StateError.TheVariants.{BadState};
ghost use Rattle.bucket_state.specs.Answers.{AnswersFound};
ghost use Rattle.bucket_state.specs.Depths.{IsWrittenWhole};
ghost use Rattle.zb_record.specs.Records.{object_text};
ghost use Rattle.zb_resolve.specs.Classes.{rule_seen};
ghost use Rattle.zb_resolve.specs.States.{readable, is_written, depth_for, IsWritableState, IsShallowState};
ghost use Rattle.zb_resolve.specs.Answers.{AnswersFor};
ghost use Rattle.zb_resolve.specs.Resolution.{found_state};

use crate::rule::{Rule, is_class_of};
use crate::state::{State, read_state};
use bucket_state::StateError;
use pickle_writing::check_depth;
use std::alloc::Global;
use zb_model::{ResolveError, Why};
use zb_record::{ObjectRecord, RecordError, read_record};

/// Whether neither part of a record is too deep to write: else `BadState`.
#[tactic(auto, using(crate::proofs::Whole::whole_is_written, crate::proofs::Whole::deep_class, crate::proofs::Whole::deep_state))]
fn check_depths(alloc: Global, object: &ObjectRecord) -> Result<(), StateError>
    ensures ok { OnOk result (is_written (object_text object.now.class object.now.state) ≡ true) }
    ensures whole { OnOk result (IsWrittenWhole object.now.state) }
    ensures bad { IfErr result (λ e. e ≡ BadState
        → is_written (object_text object.now.class object.now.state) ≡ false) }
{
    check_depth(alloc, &object.class)?;
    check_depth(alloc, &object.state)?;
    Ok(())
}

/// The state that a record of a rule's class holds. `BadState` where the bytes hold none, or where they are too deep
/// to write.
fn read_object(alloc: Global, rule: Rule, bytes: &[u8]) -> Result<State, StateError>
    ensures state { AnswersFound result (readable (rule_seen rule) bytes.now) }
    ensures writable { IfOk result (λ state. IsWritableState state) }
    ensures shallow { IfOk result (λ state. IsShallowState (depth_for (rule_seen rule)) state) }
{
    let object = match read_record(alloc, bytes) {
        Ok(object) => object,
        Err(RecordError::Memory) => return Err(StateError::Memory),
        Err(RecordError::Pickle(_)) => return Err(StateError::BadState),
        Err(RecordError::Rest { at: _ }) => return Err(StateError::BadState),
        Err(RecordError::BadClass) => return Err(StateError::BadState),
    };
    if !is_class_of(rule, &object.class) {
        return Err(StateError::BadState);
    }
    check_depths(alloc, &object)?;
    read_state(alloc, rule, &object.state)
}

/// The state that a record of a rule's class holds, or that it can't be read.
pub(crate) fn read_readable(alloc: Global, rule: Rule, bytes: &[u8]) -> Result<State, ResolveError>
    ensures state { AnswersFor result (found_state (readable (rule_seen rule) bytes.now)) }
    ensures writable { IfOk result (λ state. IsWritableState state) }
    ensures shallow { IfOk result (λ state. IsShallowState (depth_for (rule_seen rule)) state) }
{
    match read_object(alloc, rule, bytes) {
        Ok(state) => Ok(state),
        Err(StateError::BadState) => Err(ResolveError::Refused(Why::Unreadable)),
        Err(StateError::Memory) => Err(ResolveError::Memory),
    }
}
