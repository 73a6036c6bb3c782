//! Links are accepted, and given to workers.

ghost use Rattle.std.specs.Prelude.{◌≡◌, ◌++◌, [], ◌∷◌, IfErr, IfNone, IfOk, IfSome, drop, is_some, map, true, None};
ghost use mathlib.Core.List.{IsPrefix};
ghost use Rattle.zeo_serving_links.specs.Feeding.{IsOfLink, IsUnopened};
ghost use Rattle.zeo_serving_links.specs.Links.{IsAtOpening, faulty_one, opening_of};

use crate::ending::ServingEnd;
use crate::task::{LinkDone, Task};
use crate::work::LinkWork;
use hub_shared::{Ear, Origin, Pass, Seen, Shared};
use std::alloc::Global;
use std::collections::VecDeque;
use std::snapshot::Snapshot;
use std::sync::Wait;
use zb_links::{Doors, Feeder, SharedSink};
use zb_model::{Refs, Resolver, Store};
use zb_outside::{Clock, Sink, Source};
use zeo_session::SessionEnd;
use zodb_core::SessionRefusal;

/// What the second worker of a link is given.
#[derive(Drop)]
pub(crate) struct LinkNews<'a, J: Origin, O: Sink + Drop, W: Wait> {
    ear: Ear<J>,
    link_out: SharedSink<'a, O, W>,
}

/// Accepts links, as many as are to be, and gives two workers for each: first that of its session, then
/// that of the session's news.
#[derive(Drop)]
pub(crate) struct LinkFeeder<
    'a,
    'd,
    St: Store + Drop,
    R: Resolver + Drop,
    F: Refs + Drop,
    C: Clock + Drop,
    J: Origin,
    D: Doors,
    W: Wait,
> {
    /// By which it waits.
    pub(crate) rt: &'a W,
    /// Whence its memory comes.
    pub(crate) alloc: Global,
    /// The hub.
    pub(crate) shared: &'a Shared<St, R, F, C, J>,
    /// Whence links come.
    pub(crate) doors: &'d mut D,
    /// How many links are to be.
    pub(crate) count: u32,
    /// The history that was seen.
    pub(crate) seen: Option<Seen<J>>,
    /// How many sessions were opened.
    pub(crate) opened: u32,
    /// How many of those that are over ended for a fault of their link or for want of memory.
    pub(crate) faulty: u64,
    /// Why no further link is accepted.
    pub(crate) stop: Option<ServingEnd>,
    /// The news of the link that was accepted last, until its worker is given.
    pub(crate) news: Option<LinkNews<'a, J, D::Out, W>>,
    /// What the workers are given that weren't taken back.
    pub(crate) given: VecDeque<Snapshot<Task<Pass<J>, D::In, Ear<J>>>>,
    pub(crate) ghost there: { is_some seen ≡ true },
}

/// Whether a session ended for a fault of its link or for want of memory, as a number.
fn faulty_one(end: SessionEnd) -> u64
    ensures { result ≡ faulty_one end }
{
    match end {
        SessionEnd::LinkFault => 1,
        SessionEnd::Memory => 1,
        SessionEnd::Ended => 0,
        SessionEnd::BadMessage => 0,
        SessionEnd::FrameTooLong => 0,
    }
}

/// Opens the session with this number, with an ear for its news.
#[tactic(auto, using(crate::proofs::Openings::at_opening))]
fn open_session<
    St: Store + Drop,
    R: Resolver + Drop,
    F: Refs + Drop,
    C: Clock + Drop,
    J: Origin,
    W: Wait,
>(
    rt: &W,
    shared: &Shared<St, R, F, C, J>,
    seen: Seen<J>,
    number: u32,
) -> (Seen<J>, Result<(Pass<J>, Ear<J>), ServingEnd>)
    ensures begins { IsPrefix seen result.0 }
    ensures ok { IfOk result.1 (λ both. IsAtOpening number both.0) }
    ensures err { IfErr result.1 (λ end. IsUnopened end result.0) }
{
    let (seen, entered) = shared.enter(rt, seen);
    match entered {
        Ok(pass) => {
            if pass.session() != number {
                return (seen, Err(ServingEnd::Memory));
            }
            (seen, Ok(shared.listen(rt, pass)))
        }
        Err(SessionRefusal::StepsSpent) => (seen, Err(ServingEnd::StepsSpent)),
        Err(SessionRefusal::TooManySessions { .. }) => (seen, Err(ServingEnd::Memory)),
        Err(SessionRefusal::Memory) => (seen, Err(ServingEnd::Memory)),
    }
}

/// The worker of a link's news.
fn news_work<
    'a,
    St: Store + Drop,
    R: Resolver + Drop,
    F: Refs + Drop,
    C: Clock + Drop,
    J: Origin,
    I: Source + Drop,
    O: Sink + Drop,
    W: Wait,
>(
    rt: &'a W,
    alloc: Global,
    shared: &'a Shared<St, R, F, C, J>,
    news: LinkNews<'a, J, O, W>,
) -> LinkWork<'a, St, R, F, C, J, I, O, W>
    ensures { result ≡ None }
{
    let LinkNews { ear, link_out } = news;
    LinkWork {
        rt,
        alloc,
        shared,
        link_out,
        task: Task::News { ear },
    }
}

/// Notes a worker that is given, unless there is no memory for that.
fn note<
    'a,
    St: Store + Drop,
    R: Resolver + Drop,
    F: Refs + Drop,
    C: Clock + Drop,
    J: Origin,
    I: Source + Drop,
    O: Sink + Drop,
    W: Wait,
>(
    given: &mut VecDeque<Snapshot<Task<Pass<J>, I, Ear<J>>>>,
    work: LinkWork<'a, St, R, F, C, J, I, O, W>,
) -> Option<LinkWork<'a, St, R, F, C, J, I, O, W>>
    ensures same { IfSome result (λ noted. noted ≡ work.entry) }
    ensures some { IfSome result (λ _. map (λ one. opening_of I.left one.value) given.new.items
        ≡ map (λ one. opening_of I.left one.value) given.old.items ++ work.entry ∷ []) }
    ensures none { IfNone result (given.new.items ≡ given.old.items) }
{
    if given.push_back(Snapshot::of(&work.task)).is_err() {
        return None;
    }
    Some(work)
}

/// Forgets the first worker that was given.
fn forget_first<J: Origin, I: Source + Drop>(
    given: &mut VecDeque<Snapshot<Task<Pass<J>, I, Ear<J>>>>,
)
    ensures { map (λ one. opening_of I.left one.value) given.new.items
        ≡ drop 1 (map (λ one. opening_of I.left one.value) given.old.items) }
{
    let _ = given.pop_front();
}

/// Opens the session with this number for a link: the worker of the session, and what that of its news
/// is given.
fn open_link<
    'a,
    St: Store + Drop,
    R: Resolver + Drop,
    F: Refs + Drop,
    C: Clock + Drop,
    J: Origin,
    I: Source + Drop,
    O: Sink + Drop,
    W: Wait,
>(
    rt: &'a W,
    alloc: Global,
    shared: &'a Shared<St, R, F, C, J>,
    seen: Seen<J>,
    number: u32,
    link_in: I,
    out: O,
) -> (
    Seen<J>,
    Result<(LinkWork<'a, St, R, F, C, J, I, O, W>, LinkNews<'a, J, O, W>), ServingEnd>,
)
    ensures begins { IsPrefix seen result.0 }
    ensures ok { IfOk result.1 (λ link. IsOfLink number (I.left link_in) link.0) }
    ensures err { IfErr result.1 (λ end. IsUnopened end result.0) }
{
    let Ok((link_out, news_out)) = SharedSink::pair(rt, alloc, out) else {
        return (seen, Err(ServingEnd::Memory));
    };
    let (seen, opened) = open_session(rt, shared, seen, number);
    let (pass, ear) = match opened {
        Ok(both) => both,
        Err(end) => return (seen, Err(end)),
    };
    let session = LinkWork {
        rt,
        alloc,
        shared,
        link_out,
        task: Task::Session { pass, link_in },
    };
    let news = LinkNews {
        ear,
        link_out: news_out,
    };
    (seen, Ok((session, news)))
}

impl<
    'a,
    'd,
    St: Store + Send + Drop,
    R: Resolver + Send + Drop,
    F: Refs + Send + Drop,
    C: Clock + Send + Drop,
    J: Origin + Send + Sync,
    D: Doors,
    W: Wait + Sync,
> Feeder for LinkFeeder<'a, 'd, St, R, F, C, J, D, W> {
    ghost use Rattle.std.proofs.Common.{◌∙◌, refl};
    ghost use Rattle.std.specs.Prelude.{◌≢◌};
    ghost use Rattle.zeo_serving_links.specs.Feeding.{GoesOnSo, feeder_seen};
    ghost use Rattle.zeo_serving_links.specs.FeedingLaws.{goes_nowhere_so, goes_on_so};

    type W = LinkWork<'a, St, R, F, C, J, D::In, D::Out, W>;

    ghost given = { λ feeder. map (λ one. opening_of D.In.left one.value) feeder.given.items };

    ghost has_ended = { λ feeder. feeder.stop ≢ None };

    ghost later = { λ f g. (g.doors.ghost_name ≡ f.doors.ghost_name)
        × GoesOnSo St.told J.rules J.list J.counts f.count g.count
        (feeder_seen f.seen (map (λ one. opening_of D.In.left one.value) f.given.items)
        f.opened f.faulty f.stop (D.told f.doors.now) (D.faults f.doors.now))
        (feeder_seen g.seen (map (λ one. opening_of D.In.left one.value) g.given.items)
        g.opened g.faulty g.stop (D.told g.doors.now) (D.faults g.doors.now)) };

    #[tactic(auto, using(crate::proofs::Steps::gives_news, crate::proofs::Steps::gives_session, crate::proofs::Steps::stays, crate::proofs::Steps::stops_all, crate::proofs::Steps::stops_no_link, crate::proofs::Steps::stops_memory, crate::proofs::Steps::stops_unopened))]
    fn next(&mut self) -> Option<LinkWork<'a, St, R, F, C, J, D::In, D::Out, W>> {
        if self.stop.is_some() {
            return None;
        }
        if let Some(news) = self.news.take() {
            let work = news_work(self.rt, self.alloc, self.shared, news);
            let Some(work) = note(&mut self.given, work) else {
                self.stop = Some(ServingEnd::Memory);
                return None;
            };
            return Some(work);
        }
        if self.opened >= self.count {
            self.stop = Some(ServingEnd::All);
            return None;
        }
        let Ok((link_in, out)) = self.doors.accept() else {
            self.stop = Some(ServingEnd::NoLink);
            return None;
        };
        let Some(seen) = self.seen.take() else {
            unreachable!()
        };
        let (seen, opened) = open_link(
            self.rt,
            self.alloc,
            self.shared,
            seen,
            self.opened,
            link_in,
            out,
        );
        self.seen = Some(seen);
        let (work, news) = match opened {
            Ok(both) => both,
            Err(end) => {
                self.stop = Some(end);
                return None;
            }
        };
        let Some(work) = note(&mut self.given, work) else {
            self.stop = Some(ServingEnd::Memory);
            return None;
        };
        self.opened += 1;
        self.news = Some(news);
        Some(work)
    }

    #[tactic(auto, using(crate::proofs::Steps::takes_session, crate::proofs::Steps::takes_news))]
    fn take_back(&mut self, done: LinkDone<Pass<J>>) {
        forget_first(&mut self.given);
        match done {
            LinkDone::Session { pass, end } => {
                let Some(seen) = self.seen.take() else {
                    unreachable!()
                };
                self.seen = Some(self.shared.leave(self.rt, pass, seen));
                self.faulty = self.faulty.saturating_add(faulty_one(end));
            }
            LinkDone::News { end: _ } => {}
        }
    }

    ghost later_is_reflexive = { λ f. (refl, goes_nowhere_so _ _ _ _ _ _) };

    ghost later_is_transitive = { λ f g h one other. (
      other.0 ∙ one.0,
      goes_on_so _ _ _ _ _ _ _ _ _ _ one.1 other.1,
    ) };
}
