//! A desk serves what a client sends, over a hub.

ghost use Rattle.std.specs.Prelude.{◌≡◌, ◌++◌, [], ◌∷◌, IfOk, false};
ghost use Rattle.std.specs.List.{concat};
ghost use Rattle.zodb_core.specs.HubState.{IsFitting};
ghost use Rattle.zodb_core.specs.Outcomes;
ghost use Rattle.zodb_core.specs.declared.reply.Reply.{Reply};
ghost use Rattle.zeo_desk.specs.Desks.{IsFittingNext, replied};
ghost use Rattle.hub_carrier.specs.Ends.{StepsThere, end_at};
ghost use Rattle.hub_carrier.specs.Served.{HasAsked, HasDone, HasServed, IsEndOrMemory, IsSend};

use crate::holding::can_be_told;
use crate::trouble::{Trouble, worse};
use std::alloc::{AllocError, Global};
use zb_ids::{ListOf, Text8};
use zb_model::{Refs, Resolver, Store};
use zb_outside::Clock;
use zeo_client::ClientError;
use zeo_desk::{Desk, DeskError, Next};
use zodb_core::{Hub, Reply, Request};

/// Whether a request is one of a pack.
fn is_pack(request: &Request) -> bool
    ensures { result ≡ Outcomes.is_pack request.now }
{
    matches!(
        request,
        Request::Pack { .. } | Request::PackBegin { .. } | Request::PackTurn
    )
}

/// Makes a step of the session, and notes what went wrong in it.
fn step<St: Store, R: Resolver, F: Refs, C: Clock>(
    alloc: Global,
    hub: &mut Hub<St, R, F>,
    clock: &mut C,
    session: u32,
    packs: bool,
    trouble: &mut Trouble,
    request: Request,
) -> Reply
    requires fitting { IsFitting request }
    requires allowed { packs ≡ false → Outcomes.is_pack request ≡ false }
    ensures { StepsThere St.told St.lasts St.stands R.rules F.named session request result
        (end_at hub.old (C.stamps clock.old) packs trouble.old)
        (end_at hub.new (C.stamps clock.new) packs trouble.new) }
{
    let reply = hub.step(alloc, session, request, clock);
    *trouble = worse(*trouble, &reply);
    reply
}

/// Makes a step of the session, if it may be made, and hands its reply to the desk, which tells what is done next.
#[tactic(auto, using(crate::proofs::Serves::none_made, crate::proofs::Serves::step_off, crate::proofs::Serves::step_alone))]
fn ask<St: Store, R: Resolver, F: Refs, C: Clock>(
    alloc: Global,
    hub: &mut Hub<St, R, F>,
    clock: &mut C,
    session: u32,
    packs: bool,
    trouble: &mut Trouble,
    desk: &mut Desk,
    request: Request,
) -> Result<Next, ClientError>
    requires fitting { IsFitting request }
    ensures asked { HasAsked (StepsThere St.told St.lasts St.stands R.rules F.named session) request
        (end_at hub.old (C.stamps clock.old) packs trouble.old)
        (end_at hub.new (C.stamps clock.new) packs trouble.new) desk.old desk.new result }
    ensures fitting { IfOk result IsFittingNext }
{
    if !packs && is_pack(&request) {
        return Err(ClientError::Closed);
    }
    let reply = step(alloc, hub, clock, session, packs, trouble, request);
    if !can_be_told(&reply) {
        return Err(ClientError::Memory);
    }
    match desk.reply(alloc, reply) {
        Ok(next) => Ok(next),
        Err(AllocError) => Err(ClientError::Memory),
    }
}

/// Makes the last step of a message, behind whose reply frames are sent.
#[tactic(auto, using(crate::proofs::Serves::asked_frames, crate::proofs::Serves::none_behind))]
fn ask_last<St: Store, R: Resolver, F: Refs, C: Clock>(
    alloc: Global,
    hub: &mut Hub<St, R, F>,
    clock: &mut C,
    session: u32,
    packs: bool,
    trouble: &mut Trouble,
    desk: &mut Desk,
    request: Request,
) -> Result<ListOf<Text8>, ClientError>
    requires fitting { IsFitting request }
    requires last { (reply : Reply) → IsSend (replied desk.old reply).next }
    ensures done { HasDone (StepsThere St.told St.lasts St.stands R.rules F.named session) desk.old
        (Next.Step request) (end_at hub.old (C.stamps clock.old) packs trouble.old)
        (end_at hub.new (C.stamps clock.new) packs trouble.new) desk.new result }
{
    let next = match ask(alloc, hub, clock, session, packs, trouble, desk, request) {
        Ok(next) => next,
        Err(error) => return Err(error),
    };
    match next {
        Next::Send(frames) => Ok(frames),
        Next::Step(_) => unreachable!(),
    }
}

/// Makes the first step of a message, and the one behind it, where its reply asks for that, up to the frames that are
/// to be sent.
#[tactic(auto, using(crate::proofs::Serves::asked_frames, crate::proofs::Serves::asked_again, crate::proofs::Serves::last_behind))]
fn ask_first<St: Store, R: Resolver, F: Refs, C: Clock>(
    alloc: Global,
    hub: &mut Hub<St, R, F>,
    clock: &mut C,
    session: u32,
    packs: bool,
    trouble: &mut Trouble,
    desk: &mut Desk,
    request: Request,
) -> Result<ListOf<Text8>, ClientError>
    requires fitting { IsFitting request }
    ensures done { HasDone (StepsThere St.told St.lasts St.stands R.rules F.named session) desk.old
        (Next.Step request) (end_at hub.old (C.stamps clock.old) packs trouble.old)
        (end_at hub.new (C.stamps clock.new) packs trouble.new) desk.new result }
{
    let next = match ask(alloc, hub, clock, session, packs, trouble, desk, request) {
        Ok(next) => next,
        Err(error) => return Err(error),
    };
    match next {
        Next::Send(frames) => Ok(frames),
        Next::Step(further) => ask_last(alloc, hub, clock, session, packs, trouble, desk, further),
    }
}

/// Does what is done next, up to the frames that are to be sent.
#[tactic(auto, using(crate::proofs::Serves::sent_at_once))]
fn carry_out<St: Store, R: Resolver, F: Refs, C: Clock>(
    alloc: Global,
    hub: &mut Hub<St, R, F>,
    clock: &mut C,
    session: u32,
    packs: bool,
    trouble: &mut Trouble,
    desk: &mut Desk,
    next: Next,
) -> Result<ListOf<Text8>, ClientError>
    requires fitting { IsFittingNext next }
    ensures done { HasDone (StepsThere St.told St.lasts St.stands R.rules F.named session) desk.old next
        (end_at hub.old (C.stamps clock.old) packs trouble.old)
        (end_at hub.new (C.stamps clock.new) packs trouble.new) desk.new result }
{
    match next {
        Next::Send(frames) => Ok(frames),
        Next::Step(request) => ask_first(alloc, hub, clock, session, packs, trouble, desk, request),
    }
}

/// Puts the bytes of frames behind others. The one error is want of memory.
fn put_frames(text: &mut Vec<u8>, frames: &[Text8]) -> Result<(), AllocError>
    ensures { IfOk result (λ _. text.new.items ≡ text.old.items ++ concat frames.now) }
{
    for frame in frames {
        text.extend_from_slice(frame.as_slice())?;
    }
    Ok(())
}

/// What a message that isn't taken is to its sender.
fn end_of(error: DeskError) -> ClientError
    ensures cause { IsEndOrMemory result }
{
    match error {
        DeskError::BadMessage => ClientError::Closed,
        DeskError::Memory => ClientError::Memory,
    }
}

/// Serves a message: makes the steps that it names, and puts the frames that answer it behind others.
#[tactic(auto, using(crate::proofs::Serves::message_refused, crate::proofs::Serves::message_begun, crate::proofs::Serves::message_lost, crate::proofs::Serves::message_sent))]
fn serve_message<St: Store, R: Resolver, F: Refs, C: Clock>(
    alloc: Global,
    hub: &mut Hub<St, R, F>,
    clock: &mut C,
    session: u32,
    packs: bool,
    trouble: &mut Trouble,
    desk: &mut Desk,
    payload: &[u8],
    text: &mut Vec<u8>,
) -> Result<(), ClientError>
    ensures served { HasServed (StepsThere St.told St.lasts St.stands R.rules F.named session) desk.old
        (payload.now ∷ []) (end_at hub.old (C.stamps clock.old) packs trouble.old)
        (end_at hub.new (C.stamps clock.new) packs trouble.new)
        desk.new text.old.items text.new.items result }
{
    let next = match desk.take(alloc, payload) {
        Ok(next) => next,
        Err(error) => return Err(end_of(error)),
    };
    let frames = match carry_out(alloc, hub, clock, session, packs, trouble, desk, next) {
        Ok(frames) => frames,
        Err(error) => return Err(error),
    };
    let Ok(()) = put_frames(text, frames.as_slice()) else {
        return Err(ClientError::Memory);
    };
    Ok(())
}

/// Serves messages, one after another, and puts the bytes of the frames that answer them behind others.
#[tactic(auto, using(crate::proofs::Serves::none_yet, crate::proofs::Serves::one_more, crate::proofs::Serves::all_sent, crate::proofs::Serves::stopped))]
pub(crate) fn serve_messages<St: Store, R: Resolver, F: Refs, C: Clock>(
    alloc: Global,
    hub: &mut Hub<St, R, F>,
    clock: &mut C,
    session: u32,
    packs: bool,
    trouble: &mut Trouble,
    desk: &mut Desk,
    payloads: ListOf<Text8>,
    text: &mut Vec<u8>,
) -> Result<(), ClientError>
    ensures served { HasServed (StepsThere St.told St.lasts St.stands R.rules F.named session) desk.old
        payloads (end_at hub.old (C.stamps clock.old) packs trouble.old)
        (end_at hub.new (C.stamps clock.new) packs trouble.new) desk.new
        text.old.items text.new.items result }
{
    for payload in payloads.into_vec() {
        match serve_message(
            alloc,
            hub,
            clock,
            session,
            packs,
            trouble,
            desk,
            payload.as_slice(),
            text,
        ) {
            Ok(()) => {}
            Err(error) => return Err(error),
        }
    }
    Ok(())
}
