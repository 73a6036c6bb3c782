//! A message is taken, and answered in one write.

ghost use Rattle.std.specs.Prelude.{◌≡◌, IfErr, OnOk, IfOk};
ghost use Rattle.std.specs.Io.KnownBytes.{Appends};
ghost use Rattle.std.specs.List.{concat};
ghost use Rattle.zeo_session.specs.Served.{Progress};
ghost use Rattle.zeo_session.specs.Serving.{CountsFaults, HasTaken, IsNotSent};

use crate::asking::carry_out;
use crate::ending::SessionEnd;
use hub_shared::{Origin, Pass, Shared};
use std::alloc::{AllocError, Global};
use std::sync::Wait;
use zb_ids::Text8;
use zb_model::{Refs, Resolver, Store};
use zb_outside::{Clock, Sink};
use zeo_desk::{Desk, DeskError};
use zeo_server::send_frame;

/// The bytes of frames, one behind the other. The one error is want of memory.
fn joined(alloc: Global, frames: &[Text8]) -> Result<Text8, AllocError>
    ensures { IfOk result (λ text. text ≡ concat frames.now) }
{
    let mut text = Vec::new(alloc);
    for frame in frames {
        text.extend_from_slice(frame.as_slice())?;
    }
    Ok(Text8::from_vec(text))
}

/// Sends frames in one write, where the sink takes a piece whole. Where a write failed, the sink
/// has taken some front of their bytes; for want of memory it has taken none.
fn send_answer<O: Sink>(alloc: Global, link_out: &mut O, frames: &[Text8]) -> Result<(), SessionEnd>
    ensures ok { OnOk result
        (Appends (O.taken link_out.old) (O.taken link_out.new) (concat frames.now)) }
    ensures err { IfErr result (λ end. IsNotSent end (O.taken link_out.old) (O.taken link_out.new)
        (concat frames.now)) }
    ensures faults { CountsFaults (O.faults link_out.old) (O.faults link_out.new) result }
{
    let sent = if frames.len() == 1 {
        send_frame(link_out, frames[0].as_slice())
    } else {
        let Ok(text) = joined(alloc, frames) else {
            return Err(SessionEnd::Memory);
        };
        send_frame(link_out, text.as_slice())
    };
    match sent {
        Ok(()) => Ok(()),
        Err(_) => Err(SessionEnd::LinkFault),
    }
}

/// What a message that isn't taken ends a session with.
fn end_of(error: DeskError) -> SessionEnd
    ensures bad { error ≡ DeskError.BadMessage → result ≡ SessionEnd.BadMessage }
    ensures memory { error ≡ DeskError.Memory → result ≡ SessionEnd.Memory }
{
    match error {
        DeskError::BadMessage => SessionEnd::BadMessage,
        DeskError::Memory => SessionEnd::Memory,
    }
}

/// Serves a message: makes the steps that it names, and sends their answer behind the news that it
/// needs. An error is why the session is over.
pub(crate) fn serve_message<
    St: Store + Drop,
    R: Resolver + Drop,
    F: Refs + Drop,
    C: Clock + Drop,
    J: Origin,
    O: Sink,
    W: Wait,
>(
    rt: &W,
    alloc: Global,
    shared: &Shared<St, R, F, C, J>,
    pass: Pass<J>,
    desk: &mut Desk,
    link_out: &mut O,
    payload: &[u8],
) -> (Pass<J>, Result<(), SessionEnd>)
    ensures taken { (s : Progress) → s.known ≡ pass → HasTaken St.told J.rules J.list J.counts s
        result.0 desk.old desk.new payload.now (O.taken link_out.old) (O.taken link_out.new)
        result.1 }
    ensures faults { CountsFaults (O.faults link_out.old) (O.faults link_out.new) result.1 }
{
    let next = match desk.take(alloc, payload) {
        Ok(next) => next,
        Err(error) => return (pass, Err(end_of(error))),
    };
    let (now, frames) = carry_out(rt, alloc, shared, pass, desk, next);
    let Ok(frames) = frames else {
        return (now, Err(SessionEnd::Memory));
    };
    let sent = send_answer(alloc, link_out, frames.as_slice());
    (now, sent)
}
