//! What a message asks is done: steps of the session, up to the frames that answer it.

ghost use Rattle.std.specs.Prelude.{◌≡◌, IfOk};
ghost use Rattle.zodb_core.specs.HubState.{IsFitting};
ghost use Rattle.zeo_desk.specs.Desks.{IsFittingNext};
ghost use Rattle.zeo_session.specs.Served.{Progress};
ghost use Rattle.zeo_session.specs.Serving.{HasAsked, HasDone};

use hub_shared::{Origin, Pass, Shared};
use std::alloc::{AllocError, Global};
use std::sync::Wait;
use zb_ids::{ListOf, Text8};
use zb_model::{Refs, Resolver, Store};
use zb_outside::Clock;
use zeo_desk::{Desk, Next};
use zodb_core::Request;

/// Makes a step of the session, and hands its reply to the desk, which tells what is done next. The
/// one error is want of memory for that.
fn ask<St: Store + Drop, R: Resolver + Drop, F: Refs + Drop, C: Clock + Drop, J: Origin, W: Wait>(
    rt: &W,
    alloc: Global,
    shared: &Shared<St, R, F, C, J>,
    pass: Pass<J>,
    desk: &mut Desk,
    request: Request,
) -> (Pass<J>, Result<Next, AllocError>)
    requires { IsFitting request }
    ensures asked { HasAsked St.told J.rules J.list J.counts request pass result.0 desk.old desk.new
        result.1 }
    ensures fitting { IfOk result.1 IsFittingNext }
{
    let (behind, reply) = shared.call_waiting(rt, alloc, pass, request);
    let next = desk.reply(alloc, reply);
    (behind, next)
}

/// Does what is done next on a link, up to the frames that are to be sent. The one error is want of
/// memory for them; the steps before are made.
pub(crate) fn carry_out<
    St: Store + Drop,
    R: Resolver + Drop,
    F: Refs + Drop,
    C: Clock + Drop,
    J: Origin,
    W: Wait,
>(
    rt: &W,
    alloc: Global,
    shared: &Shared<St, R, F, C, J>,
    pass: Pass<J>,
    desk: &mut Desk,
    next: Next,
) -> (Pass<J>, Result<ListOf<Text8>, AllocError>)
    requires { IsFittingNext next }
    ensures { (s : Progress) → s.known ≡ pass → HasDone St.told J.rules J.list J.counts s result.0
        desk.old next desk.new result.1 }
{
    let mut now = pass;
    let mut to_do = next;
    'steps: for _ in rt.forever() {
        match to_do {
            Next::Send(frames) => return (now, Ok(frames)),
            Next::Step(request) => {
                let (behind, answered) = ask(rt, alloc, shared, now, desk, request);
                now = behind;
                match answered {
                    Ok(further) => to_do = further,
                    Err(error) => return (now, Err(error)),
                }
            }
        }
    }
    unreachable!()
}
