//! A session serves its link.

ghost use Rattle.std.specs.Prelude.{◌≡◌, ◌<◌, ℕ, List, length};
ghost use mathlib.Core.List.{IsPrefix};
ghost use Rattle.zodb_core.specs.History.{IsLegalOver};
ghost use Rattle.zeo_session.specs.Served.{IsSessionOver, Progress};
ghost use Rattle.zeo_session.specs.Serving.{CountsBothFaults, CountsFaults};
ghost use Rattle.zeo_session.specs.Serving.{HasComeOn, HasComeSo, HasServedAll, HasTakenAll};

use crate::answering::serve_message;
use crate::ending::SessionEnd;
use hub_shared::{Origin, Pass, Shared};
use std::alloc::Global;
use std::sync::Wait;
use zb_ids::{ListOf, Text8};
use zb_model::{Refs, Resolver, Store};
use zb_outside::{Clock, Sink, Source};
use zeo_desk::Desk;
use zeo_frames::{FrameError, Frames};
use zodb_core::Request;

/// How many bytes a read of a link takes at most.
const PIECE: usize = 65_536;

/// What a stream of frames that can't be read on ends a session with.
fn end_of(error: FrameError) -> SessionEnd
    ensures long { (length : ℕ) → error ≡ FrameError.FrameTooLong length
        → result ≡ SessionEnd.FrameTooLong }
    ensures memory { error ≡ FrameError.Memory → result ≡ SessionEnd.Memory }
{
    match error {
        FrameError::FrameTooLong { length: _ } => SessionEnd::FrameTooLong,
        FrameError::Memory => SessionEnd::Memory,
    }
}

/// Reads from a link until a payload is whole, for which it may wait, and gives those that are. An
/// error is why no further one comes.
fn next_payloads<I: Source, W: Wait>(
    rt: &W,
    frames: &mut Frames,
    link_in: &mut I,
    piece: &mut [u8],
) -> Result<ListOf<Text8>, SessionEnd>
    requires { 0 < length piece.old }
    ensures come { (came : List ℕ) (given : List (List ℕ)) → HasComeSo came given frames.old
        → HasComeOn came given (I.left link_in.old) (I.left link_in.new) frames.new result }
    ensures faults { CountsFaults (I.faults link_in.old) (I.faults link_in.new) result }
{
    let mut count = 0;
    'reading: for _ in rt.forever() {
        let payloads = match frames.feed(&piece[..count]) {
            Ok(payloads) => payloads,
            Err(error) => return Err(end_of(error)),
        };
        if !payloads.is_empty() {
            return Ok(payloads);
        }
        let Ok(more) = link_in.read(piece) else {
            return Err(SessionEnd::LinkFault);
        };
        if more == 0 {
            return Err(SessionEnd::Ended);
        }
        count = more;
    }
    unreachable!()
}

/// Serves messages, one after another. An error is why the session is over.
fn serve_payloads<
    St: Store + Drop,
    R: Resolver + Drop,
    F: Refs + Drop,
    C: Clock + Drop,
    J: Origin,
    O: Sink,
    W: Wait,
>(
    rt: &W,
    alloc: Global,
    shared: &Shared<St, R, F, C, J>,
    pass: Pass<J>,
    desk: &mut Desk,
    link_out: &mut O,
    payloads: ListOf<Text8>,
) -> (Pass<J>, Result<(), SessionEnd>)
    ensures taken { (s : Progress) → s.known ≡ pass → HasTakenAll St.told J.rules J.list J.counts s
        result.0 desk.old desk.new payloads (O.taken link_out.old) (O.taken link_out.new) result.1 }
    ensures faults { CountsFaults (O.faults link_out.old) (O.faults link_out.new) result.1 }
{
    let mut now = pass;
    for payload in payloads.into_vec() {
        let (behind, served) = serve_message(
            rt,
            alloc,
            shared,
            now,
            desk,
            link_out,
            payload.as_slice(),
        );
        now = behind;
        if let Err(end) = served {
            return (now, Err(end));
        }
    }
    (now, Ok(()))
}

/// Serves all messages of a link, for which it may wait. The session isn't closed yet.
fn serve_link<
    St: Store + Drop,
    R: Resolver + Drop,
    F: Refs + Drop,
    C: Clock + Drop,
    J: Origin,
    I: Source,
    O: Sink,
    W: Wait,
>(
    rt: &W,
    alloc: Global,
    shared: &Shared<St, R, F, C, J>,
    pass: Pass<J>,
    link_in: &mut I,
    link_out: &mut O,
) -> (Pass<J>, SessionEnd)
    ensures served { HasServedAll St.told J.rules J.list J.counts result.1 pass result.0
        (I.left link_in.old) (I.left link_in.new) (O.taken link_out.old) (O.taken link_out.new) }
    ensures faults { CountsBothFaults (I.faults link_in.old) (I.faults link_in.new)
        (O.faults link_out.old) (O.faults link_out.new) result.1 }
{
    let Ok(mut piece) = vec![in alloc; 0u8; PIECE] else {
        return (pass, SessionEnd::Memory);
    };
    let mut frames = Frames::new(alloc);
    let mut desk = Desk::new(alloc);
    let mut now = pass;
    'serving: for _ in rt.forever() {
        let payloads = match next_payloads(rt, &mut frames, link_in, &mut piece) {
            Ok(payloads) => payloads,
            Err(end) => return (now, end),
        };
        let (behind, served) = serve_payloads(
            rt, alloc, shared, now, &mut desk, link_out, payloads,
        );
        now = behind;
        if let Err(end) = served {
            return (now, end);
        }
    }
    unreachable!()
}

/// Serves the session of a pass over a link, for which it may wait: reads messages, makes the steps
/// that each names, and sends what answers it in one write, where the link takes a piece whole.
/// News goes before the answer that needs it. Then it closes the session, with which its vote and
/// its pack are dropped, and tells why it was over.
///
/// It is `Ended` where the link ended, also in the middle of a frame; `BadMessage` at the first
/// payload that is no message of a client, and `FrameTooLong` at the first frame above the limit,
/// behind which no step is made; `LinkFault` where a read or a write failed. A step that is refused
/// ends nothing.
pub fn serve_session<
    St: Store + Drop,
    R: Resolver + Drop,
    F: Refs + Drop,
    C: Clock + Drop,
    J: Origin,
    I: Source,
    O: Sink,
    W: Wait,
>(
    rt: &W,
    alloc: Global,
    shared: &Shared<St, R, F, C, J>,
    pass: Pass<J>,
    link_in: &mut I,
    link_out: &mut O,
) -> (Pass<J>, SessionEnd)
    ensures begins { IsPrefix pass.seen result.0.seen }
    ensures session { result.0.session ≡ pass.session }
    ensures legal { St.told → IsLegalOver J.rules J.list J.counts result.0.seen }
    ensures over { IsSessionOver St.told J.rules J.list J.counts result.1 pass result.0
        (I.left link_in.old) (I.left link_in.new) (O.taken link_out.old) (O.taken link_out.new) }
    ensures faults { CountsBothFaults (I.faults link_in.old) (I.faults link_in.new)
        (O.faults link_out.old) (O.faults link_out.new) result.1 }
{
    let (served, end) = serve_link(rt, alloc, shared, pass, link_in, link_out);
    let (closed, _) = shared.call(rt, alloc, served, Request::Close);
    (closed, end)
}
