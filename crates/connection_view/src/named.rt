//! Objects whose cached revisions may be old.

ghost use Rattle.std.specs.Prelude.{◌≡◌, [], false, true};
ghost use Rattle.connection_view.specs.Named.{CoversNamed, KeepsUnnamed};
ghost use Rattle.connection_view.specs.Views.{are_changed, is_news_of, is_one, is_one_of, stored_in};

use object_cache::ObjectCache;
use std::alloc::Global;
use zb_ids::{ListOf, Oid};
use zb_model::{News, NewsCommit, PendingStore};

/// Some objects by their numbers, or all objects. Where there is no memory to name one more, all are named.
#[derive(Drop)]
pub(crate) struct Named {
    /// All objects are named.
    pub(crate) all: bool,
    /// The objects that are named beside.
    pub(crate) oids: ListOf<Oid>,
}

impl Named {
    /// No object is named.
    pub(crate) fn none(alloc: Global) -> Named
        ensures all { result.all ≡ false }
        ensures oids { result.oids ≡ [] }
    {
        Named {
            all: false,
            oids: ListOf::new(alloc),
        }
    }

    /// All objects are named.
    pub(crate) fn add_all(&mut self)
        ensures { self.new.all ≡ true }
    {
        self.all = true;
    }

    /// One more object is named.
    pub(crate) fn add(&mut self, oid: Oid)
        ensures { CoversNamed (is_one oid) self.old self.new }
    {
        if self.oids.push(oid).is_err() {
            self.all = true;
        }
    }

    /// These objects are named beside.
    fn add_oids(&mut self, oids: &[Oid])
        ensures { CoversNamed (is_one_of oids.now) self.old self.new }
    {
        for oid in oids {
            self.add(*oid);
        }
    }

    /// The objects that these commits changed are named beside.
    fn add_commits(&mut self, commits: &[NewsCommit])
        ensures { CoversNamed (are_changed commits.now) self.old self.new }
    {
        for commit in commits {
            self.add_oids(commit.oids.as_slice());
        }
    }

    /// The objects that news names are named beside.
    pub(crate) fn add_news(&mut self, news: &News)
        ensures { CoversNamed (is_news_of news.now) self.old self.new }
    {
        if news.forget || news.packed {
            self.all = true;
        } else {
            self.add_commits(news.commits.as_slice());
        }
    }

    /// The objects of these stores are named beside.
    pub(crate) fn add_stores(&mut self, stores: &[PendingStore])
        ensures { CoversNamed (stored_in stores.now) self.old self.new }
    {
        for store in stores {
            self.add(store.oid);
        }
    }
}

/// Drops what is cached of each object that is named.
pub(crate) fn forget(cache: &mut ObjectCache, named: &Named)
    ensures { KeepsUnnamed named.now cache.old.objects cache.new.objects }
{
    if named.all {
        cache.clear();
    } else {
        for oid in named.oids.as_slice() {
            cache.drop_one(*oid);
        }
    }
}
