//! Where the contents of a few data records are known to stand.

ghost use Rattle.std.specs.Prelude.{◌≡◌, ℕ, [], true, List, IfSome};
ghost use Rattle.fs_reading.specs.declared.outline.KnownSource.{KnownSource};
ghost use Rattle.fs_reading.specs.Known.{AreSourcesOf, IsSourceOf};
ghost use Rattle.fs_reading.specs.Outlines.{HasLength};

use crate::outline::{KnownSource, Source};
use std::alloc::Global;
use std::marker::Model;

/// How many are known at most.
const MOST: usize = 64;

/// Where the contents stand of the data records that were followed last to an earlier one, 64 at most.
/// So a chain of back pointers that grows by a record at a time isn't gone through from its end again.
#[derive(Drop)]
pub struct KnownSources {
    known: Vec<KnownSource>,
    /// Which of them is the oldest, where there are as many as there may be.
    oldest: usize,
}

impl Model for KnownSources {
    ghost Value = { List KnownSource };

    ghost view = { λ a. a.known.items };
}

/// Whether a content that is there has bytes.
fn has_length(source: Option<Source>) -> bool
    ensures { result ≡ true → HasLength source }
{
    match source {
        Some(source) => source.length > 0,
        None => true,
    }
}

impl KnownSources {
    /// None, which takes no memory until one is known.
    pub fn new(alloc: Global) -> KnownSources
        ensures { result ≡ [] }
    {
        KnownSources {
            known: Vec::new(alloc),
            oldest: 0,
        }
    }

    /// Forgets all that is known, and keeps the memory.
    pub fn forget(&mut self)
        ensures { self.new ≡ [] }
    {
        self.known.clear();
        self.oldest = 0;
    }

    #[tactic(auto, using(crate::proofs::Longer::known_get))]
    /// What is known of the data record at a place.
    pub(crate) fn get(&self, at: u64) -> Option<KnownSource>
        ensures known { (bytes : List ℕ) → AreSourcesOf bytes self.now
            → IfSome result (λ k. IsSourceOf bytes at k.source) }
        ensures filled { IfSome result (λ k. HasLength k.source) }
    {
        let mut left = self.known.len();
        while left > 0 {
            left -= 1;
            let known = self.known[left];
            if known.at == at && has_length(known.source) {
                return Some(known);
            }
        }
        None
    }

    /// Puts one in the place of the oldest.
    #[tactic(auto, using(crate::proofs::Longer::known_push, crate::proofs::Longer::known_set))]
    fn put(&mut self, known: KnownSource)
        ensures { (bytes : List ℕ) → AreSourcesOf bytes self.old
            → IsSourceOf bytes known.at known.source → AreSourcesOf bytes self.new }
    {
        if self.known.len() < MOST {
            let _ = self.known.push(known);
            return;
        }
        if self.oldest >= self.known.len() {
            self.oldest = 0;
        }
        let place = self.oldest;
        self.known[place] = known;
        self.oldest = place + 1;
    }

    /// Keeps where the content of the data record at a place stands, unless it is known or there is
    /// not enough memory.
    pub(crate) fn enter(&mut self, at: u64, source: Option<Source>)
        ensures { (bytes : List ℕ) → AreSourcesOf bytes self.old
            → IsSourceOf bytes at source → AreSourcesOf bytes self.new }
    {
        if self.get(at).is_some() {
            return;
        }
        self.put(KnownSource { at, source });
    }
}
