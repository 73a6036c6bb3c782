//! The workers of a link.

use crate::task::{LinkDone, Task};
use hub_shared::{Ear, Origin, Pass, Shared};
use std::alloc::Global;
use std::marker::Model;
use std::sync::Wait;
use zb_links::{SharedSink, Worker};
use zb_model::{Refs, Resolver, Store};
use zb_outside::{Clock, Sink, Source};
use zeo_server::push_news;
use zeo_session::serve_session;

/// A worker of a link. Contracts see the opening of its session, where it serves that.
#[derive(Drop)]
pub(crate) struct LinkWork<
    'a,
    St: Store + Drop,
    R: Resolver + Drop,
    F: Refs + Drop,
    C: Clock + Drop,
    J: Origin,
    I: Source + Drop,
    O: Sink + Drop,
    W: Wait,
> {
    /// By which it waits.
    pub(crate) rt: &'a W,
    /// Whence its memory comes.
    pub(crate) alloc: Global,
    /// The hub.
    pub(crate) shared: &'a Shared<St, R, F, C, J>,
    /// What is sent to the client.
    pub(crate) link_out: SharedSink<'a, O, W>,
    /// What it does.
    pub(crate) task: Task<Pass<J>, I, Ear<J>>,
}

impl<
    'a,
    St: Store + Drop,
    R: Resolver + Drop,
    F: Refs + Drop,
    C: Clock + Drop,
    J: Origin,
    I: Source + Drop,
    O: Sink + Drop,
    W: Wait,
> Model for LinkWork<'a, St, R, F, C, J, I, O, W> {
    ghost use Rattle.std.specs.Prelude.{Option};
    ghost use Rattle.zeo_serving_links.specs.Links.{Opening, opening_of};

    ghost Value = { Option Opening };

    ghost view = { λ w. opening_of I.left w.task };
}

impl<
    'a,
    St: Store + Send + Drop,
    R: Resolver + Send + Drop,
    F: Refs + Send + Drop,
    C: Clock + Send + Drop,
    J: Origin + Send + Sync,
    I: Source + Send + Drop,
    O: Sink + Send + Drop,
    W: Wait + Sync,
> Worker for LinkWork<'a, St, R, F, C, J, I, O, W> {
    ghost use Rattle.zeo_serving_links.specs.Links.{IsHandedBack};

    type Done = LinkDone<Pass<J>>;

    ghost gives = { λ work done. IsHandedBack St.told J.rules J.list J.counts work done };

    fn work(self) -> LinkDone<Pass<J>> {
        let LinkWork {
            rt,
            alloc,
            shared,
            mut link_out,
            task,
        } = self;
        match task {
            Task::Session { pass, mut link_in } => {
                let (pass, end) = serve_session(
                    rt,
                    alloc,
                    shared,
                    pass,
                    &mut link_in,
                    &mut link_out,
                );
                LinkDone::Session { pass, end }
            }
            Task::News { ear } => {
                let (_, end) = push_news(rt, alloc, shared, ear, &mut link_out);
                LinkDone::News { end }
            }
        }
    }
}
