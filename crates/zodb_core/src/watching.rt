//! What is asked of a hub besides its steps. None of it is a step, and none of it changes the hub.

ghost use Rattle.std.specs.Prelude.{◌≡◌, ◌<◌, ◌-◌, ◌^◌, IfOk, drop, false, filter, length};
ghost use Rattle.std.specs.List.{list_any};
ghost use Rattle.zb_model.specs.Database.{newest_tid};
ghost use Rattle.zodb_core.specs.Machine.{is_news_for, news_of};
ghost use Rattle.zodb_core.specs.Waiting.{is_held_by_another};

use crate::hub::Hub;
use crate::news::{entries_behind, gather_news, has_news};
use std::alloc::{AllocError, Global};
use zb_ids::Tid;
use zb_model::{News, Refs, Resolver, Store};

impl<St: Store, R: Resolver, F: Refs> Hub<St, R, F> {
    /// Whether another session holds the vote, so that a vote or an undo of this one is busy.
    pub fn is_held(&self, session: u32) -> bool
        ensures { result ≡ is_held_by_another session self.now.vote }
    {
        match &self.vote {
            Some(vote) => vote.session != session,
            None => false,
        }
    }

    /// The newest tid of the list.
    pub fn newest(&self) -> Tid
        requires whole { self.now.store.broken ≡ false }
        ensures value { St.told → result ≡ newest_tid self.now.store.list }
        ensures below { result < 2 ^ 64 - 1 }
    {
        self.store.newest()
    }

    /// How many entries the journal has.
    pub fn entries(&self) -> u64
        ensures { result ≡ length self.now.journal }
    {
        self.journal.len()
    }

    /// Whether the journal has news for a session that was told so many of its entries.
    pub fn has_news(&self, session: u32, told: u64) -> bool
        ensures { result ≡ list_any (is_news_for session) (drop told self.now.journal) }
    {
        self.journal.has_news(session, told)
    }

    /// The news for a session that was told so many entries. The one error is want of memory.
    pub fn news_after(&self, alloc: Global, session: u32, told: u64) -> Result<News, AllocError>
        ensures { IfOk result (λ news. news ≡ news_of (filter (is_news_for session) (drop told self.now.journal))) }
    {
        gather_news(alloc, self.journal.entries(), told, session)
    }
}
