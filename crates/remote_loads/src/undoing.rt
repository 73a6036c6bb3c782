//! The call of an undo.

ghost use Rattle.std.specs.Prelude.{◌≡◌, ◌≤◌, IfErr, IfOk, OnOk, true};
ghost use Rattle.connection_view.specs.Loading.{IsShortText};
ghost use Rattle.zeo_messages.specs.declared.call.Call.{Call};
ghost use Rattle.zeo_messages.specs.Calls.{falls_below, fits_call, is_falling};
ghost use Rattle.zeo_values.specs.Values.{AreIds};
ghost use Rattle.zeo_client.specs.Asking.{call_length};
ghost use Rattle.remote_loads.specs.Causes.{IsUndoRefused};

use crate::holding::tids_are_held;
use std::alloc::{AllocError, Global};
use zb_ids::{ListOf, Text8, Tid};
use zb_model::Refusal;
use zeo_frames::FRAME_LIMIT;
use zeo_messages::{Call, Message, length_of};

/// Whether there is a tid, and each is less than the one before.
fn are_falling(tids: &[Tid]) -> bool
    ensures { result ≡ is_falling tids.now }
{
    match tids {
        [] => false,
        [first, rest @ ..] => fall_below(*first, rest),
    }
}

/// Whether each of the tids is less than the one before; the first one less than the bound.
fn fall_below(first: Tid, tids: &[Tid]) -> bool
    ensures { result ≡ falls_below first tids.now }
{
    let mut bound = first;
    for tid in tids {
        if *tid >= bound {
            return false;
        }
        bound = *tid;
    }
    true
}

/// The parts of the call of an undo. The one error is want of memory.
fn undoa(alloc: Global, user: &Text8, description: &Text8, tids: &[Tid]) -> Result<Call, AllocError>
    ensures { IfOk result (λ call. call ≡ Call.Undoa user.now description.now tids.now) }
{
    let user = user.clone()?;
    let description = description.clone()?;
    let tids = Vec::from_slice(alloc, tids)?;
    Ok(Call::Undoa {
        user,
        description,
        tids: ListOf::from_vec(tids),
    })
}

/// The call that was asked, given back.
fn call_of(message: Message) -> Option<Call>
    ensures { (n : _) (call : _) → message ≡ Message.Asked n call → result ≡ Some call }
{
    match message {
        Message::Asked { number: _, call } => Some(call),
        Message::Answered {
            number: _,
            answer: _,
        } => None,
        Message::Told { notice: _ } => None,
    }
}

/// A call, unless its payload doesn't fit a frame: `TooLong`, with the number of the call counted as 5 bytes. The only
/// other refusal is want of memory.
#[tactic(auto, using(crate::proofs::Made::too_long))]
fn fitting(alloc: Global, call: Call) -> Result<Call, Refusal>
    requires fits { fits_call call ≡ true }
    ensures call { IfOk result (λ fitting. fitting ≡ call) }
    ensures within { OnOk result (call_length call ≤ FRAME_LIMIT) }
    ensures refused { IfErr result (IsUndoRefused call true) }
{
    let message = Message::Asked { number: 0, call };
    let length = length_of(alloc, &message);
    let Some(call) = call_of(message) else {
        return Err(Refusal::Memory);
    };
    match length {
        Ok(length) => {
            if length > u64::from(FRAME_LIMIT) {
                return Err(Refusal::TooLong { length });
            }
            Ok(call)
        }
        Err(_) => Err(Refusal::Memory),
    }
}

/// The call of an undo. `BadMessage` comes exactly where the tids aren't at least one, each less than the one before;
/// then `TooLong` where it doesn't fit a frame; the only other refusal is want of memory.
pub(crate) fn undo_call(
    alloc: Global,
    user: &Text8,
    description: &Text8,
    tids: &[Tid],
) -> Result<Call, Refusal>
    requires user { IsShortText user.now }
    requires description { IsShortText description.now }
    ensures call { IfOk result (λ call. call ≡ Call.Undoa user.now description.now tids.now) }
    ensures fits { IfOk result (λ call. fits_call call ≡ true) }
    ensures within { IfOk result (λ call. call_length call ≤ FRAME_LIMIT) }
    ensures ids { OnOk result (AreIds tids.now) }
    ensures refused { IfErr result (IsUndoRefused (Call.Undoa user.now description.now tids.now) (is_falling tids.now)) }
{
    tids_are_held(tids);
    if !are_falling(tids) {
        return Err(Refusal::BadMessage);
    }
    match undoa(alloc, user, description, tids) {
        Ok(call) => fitting(alloc, call),
        Err(_) => Err(Refusal::Memory),
    }
}
