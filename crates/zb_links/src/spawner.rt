//! What runs workers.

ghost use Rattle.std.specs.Prelude.{◌≡◌, ◌≤◌, ◌↔◌, ℕ, Bool, false, [], length, IsTrue, OnOk, OnErr};
ghost use Rattle.zb_base.specs.Counts.{HasCause, Rose};

use crate::running::run_workers;
use crate::worker::Feeder;
use std::alloc::Global;
use std::sync::Wait;
use std::thread::Threads;
use thiserror::Error;

/// A worker wasn't started, and the count of faults of the spawner rose.
#[derive(Clone, Copy, Debug, PartialEq, Eq, Error)]
#[error("a worker wasn't started")]
pub struct NoWorkers;

/// Runs workers. Its other calls say how `run` starts them: on threads or in turn, and which starts
/// are to fail.
pub trait Spawner {
    /// How many runs failed, from 0 to 2^64-1, where the count stays.
    ghost faults: { Self → ℕ };

    /// Each worker has a thread of its own.
    ghost has_threads: { Self → Bool };

    /// The start with this number, counted from 1 in each run, is to fail.
    ghost refused: { Self → ℕ → Type 0 };

    /// Whether each worker has a thread of its own. Else each is run in the caller's, before the
    /// next one is given.
    fn uses_threads(&self) -> bool
        ensures { result ≡ has_threads self.now };

    /// Whether the start with this number is to fail. The first start of a run is number 1.
    fn refuses(&self, start: u64) -> bool
        ensures { IsTrue result ↔ refused self.now start };

    /// Counts a run that failed.
    fn count_fault(&mut self)
        ensures counted { faults self.old ≤ faults self.new }
        ensures rose { Rose (faults self.old) (faults self.new) };

    /// Runs each worker that the feeder gives, until it gives no further one, and has it take back
    /// what they hand back, in the order in which they were given. Workers with threads of their
    /// own are waited for once no further one is given. The feeder comes back with either answer.
    ///
    /// It is `NoWorkers` only where a start is to fail, or where there are threads and one can't be
    /// made or there is no memory for its place; and then the count of faults rises. The worker
    /// that wasn't started is dropped, if there was one already, and the feeder isn't asked for
    /// another; the others are waited for and taken back.
    final fn run<F: Feeder, R: Threads + Wait + Sync>(
        &mut self,
        rt: &R,
        alloc: Global,
        feeder: F,
    ) -> (F, Result<(), NoWorkers>)
        requires { F.given feeder ≡ [] }
        ensures later { F.later feeder result.0 }
        ensures ended { OnOk result.1 (F.has_ended result.0) }
        ensures all { OnOk result.1 (F.given result.0 ≡ []) }
        ensures dropped { OnErr result.1 (length (F.given result.0) ≤ 1) }
        ensures refused { has_threads self.old ≡ false
            → OnErr result.1 ((start : ℕ) × refused self.old start) }
        ensures same { OnOk result.1 (self.new ≡ self.old) }
        ensures cause { HasCause (faults self.old) (faults self.new) result.1 }
    {
        let (feeder, all_ran) = run_workers(self, rt, alloc, feeder);
        if all_ran {
            return (feeder, Ok(()));
        }
        self.count_fault();
        (feeder, Err(NoWorkers))
    }
}
