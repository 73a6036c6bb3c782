//! A spawner over threads of the host.

ghost use Rattle.std.specs.Prelude.{◌≡◌};

use crate::spawner::Spawner;

/// A spawner that runs each worker on a thread of its own.
#[derive(Debug, Drop)]
pub struct ThreadSpawner {
    faults: u64,
}

impl ThreadSpawner {
    /// A spawner of which no run failed yet.
    pub fn new() -> ThreadSpawner
        ensures { ⟦<ThreadSpawner as Spawner>⟧.faults result ≡ 0 }
    {
        ThreadSpawner { faults: 0 }
    }

    /// How many runs failed.
    pub fn faults(&self) -> u64
        ensures { result ≡ ⟦<ThreadSpawner as Spawner>⟧.faults self.now }
    {
        self.faults
    }
}

impl Spawner for ThreadSpawner {
    ghost use Rattle.std.specs.Prelude.{true};

    ghost faults = { λ spawner. spawner.faults };

    ghost has_threads = { λ _. true };

    ghost refused = { λ _ _. ⊥ };

    fn uses_threads(&self) -> bool {
        true
    }

    fn refuses(&self, _start: u64) -> bool {
        false
    }

    fn count_fault(&mut self) {
        self.faults = self.faults.saturating_add(1);
    }
}
