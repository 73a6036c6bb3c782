//! A spawner in memory.

ghost use Rattle.std.specs.Prelude.{◌≡◌, ◌≤◌, ◌↔◌, Contains, false, IsTrue};
ghost use Rattle.zb_base.specs.Counts.{Rose, one_more};
ghost use Rattle.zb_links.specs.MemoryState.{SpawnerState};

use crate::spawner::Spawner;
use std::marker::Model;

/// A spawner that runs each worker in the caller's thread, before it is given the next one, and
/// may fail at the starts that it is told, and at no others.
#[derive(Debug, Drop)]
pub struct CountedSpawner {
    failing: Vec<u64>,
    faults: u64,
}

impl Model for CountedSpawner {
    ghost use Rattle.zb_links.specs.MemoryState.{SpawnerState};

    ghost Value = { SpawnerState };

    ghost view = { λ spawner. record {
      failing = spawner.failing.items;
      faults = spawner.faults;
    } };
}

impl CountedSpawner {
    /// A spawner of which no run failed yet. It may fail at the starts whose numbers are in
    /// `failing`, the first start of a run being number 1.
    pub fn new(failing: Vec<u64>) -> CountedSpawner
        ensures { result ≡ record { failing = failing.items; faults = 0 } }
    {
        CountedSpawner { failing, faults: 0 }
    }

    /// How many runs failed.
    pub fn faults(&self) -> u64
        ensures { result ≡ self.now.faults }
    {
        self.faults
    }
}

impl Spawner for CountedSpawner {
    ghost faults = { λ spawner. spawner.faults };

    ghost has_threads = { λ _. false };

    ghost refused = { λ spawner start. Contains spawner.failing start };

    fn uses_threads(&self) -> bool {
        false
    }

    fn refuses(&self, start: u64) -> bool {
        self.failing.contains(&start)
    }

    fn count_fault(&mut self)
        ensures counted { self.old.faults ≤ self.new.faults }
        ensures rose { Rose self.old.faults self.new.faults }

        ensures state { self.new ≡ record self.old { faults = one_more self.old.faults } }
    {
        self.faults = self.faults.saturating_add(1);
    }
}
