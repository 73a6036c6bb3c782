//! The news of a link's session is sent as it comes.

ghost use Rattle.std.specs.Prelude.{◌≡◌, ◌≢◌, ◌≤◌, IfErr, OnErr, OnOk};
ghost use Rattle.std.specs.Io.KnownBytes.{Appends};
ghost use mathlib.Core.List.{IsPrefix};
ghost use Rattle.zb_base.specs.Counts.{Rose};
ghost use Rattle.zb_outside.specs.Written.{AppendsPrefix};
ghost use Rattle.zodb_core.specs.History.{IsLegalOver};
ghost use Rattle.zeo_news.specs.Notices.{news_text};
ghost use Rattle.zeo_server.specs.Pushes.{HasPushed};

use crate::sending::send_frames;
use hub_shared::{Ear, Heard, Origin, Shared};
use std::alloc::Global;
use std::sync::Wait;
use zb_ids::Tid;
use zb_model::{News, Refs, Resolver, Store};
use zb_outside::{Clock, Sink};
use zeo_news::news_frames;

/// Why no more news is sent.
#[derive(Clone, Copy, Debug, PartialEq, Eq)]
pub enum PushEnd {
    /// The session isn't open.
    Over,
    /// A write to the link failed.
    LinkFault,
    /// There is no memory.
    Memory,
}

/// Sends the frames of news.
#[tactic(auto, using(zb_outside::specs::WrittenLaws::no_front))]
fn push_piece<O: Sink>(
    alloc: Global,
    link_out: &mut O,
    front: Tid,
    news: News,
) -> Result<(), PushEnd>
    ensures ok { OnOk result (Appends (O.taken link_out.old) (O.taken link_out.new) (news_text front news)) }
    ensures err { OnErr result (AppendsPrefix (O.taken link_out.old) (O.taken link_out.new) (news_text front news)) }
    ensures ends { IfErr result (λ end. end ≢ PushEnd.Over) }
    ensures counted { O.faults link_out.old ≤ O.faults link_out.new }
    ensures fault { IfErr result (λ end. end ≡ PushEnd.LinkFault → Rose (O.faults link_out.old) (O.faults link_out.new)) }
{
    let Ok(frames) = news_frames(alloc, front, news) else {
        return Err(PushEnd::Memory);
    };
    match send_frames(link_out, frames.as_slice()) {
        Ok(()) => Ok(()),
        Err(_) => Err(PushEnd::LinkFault),
    }
}

/// Sends the news of the ear's session as it comes, for which it may wait, until the session isn't open:
/// each piece of news that is heard as its notices, each notice in a frame, in one write where the sink
/// takes a piece whole.
pub fn push_news<
    St: Store + Drop,
    R: Resolver + Drop,
    F: Refs + Drop,
    C: Clock + Drop,
    J: Origin,
    O: Sink,
    W: Wait,
>(
    rt: &W,
    alloc: Global,
    shared: &Shared<St, R, F, C, J>,
    ear: Ear<J>,
    link_out: &mut O,
) -> (Ear<J>, PushEnd)
    ensures begins { IsPrefix ear.seen result.0.seen }
    ensures session { result.0.session ≡ ear.session }
    ensures legal { St.told → IsLegalOver J.rules J.list J.counts result.0.seen }
    ensures counted { O.faults link_out.old ≤ O.faults link_out.new }
    ensures fault { result.1 ≡ PushEnd.LinkFault → Rose (O.faults link_out.old) (O.faults link_out.new) }
    ensures pushed { St.told → HasPushed J.rules J.list ear result.0 result.1
        (O.taken link_out.old) (O.taken link_out.new) }
{
    let mut now = ear;
    'pushing: for _ in rt.forever() {
        let (next, heard) = shared.hear(rt, alloc, now);
        now = next;
        match heard {
            Heard::News { news, front } => {
                if let Err(end) = push_piece(alloc, link_out, front, news) {
                    return (now, end);
                }
            }
            Heard::Over => return (now, PushEnd::Over),
            Heard::Memory => return (now, PushEnd::Memory),
        }
    }
    unreachable!()
}
