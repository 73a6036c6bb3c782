//! Workers are run, each in a thread of its own or one after another.

ghost use Rattle.std.specs.Prelude.{◌≡◌, ◌≤◌, ◌+◌, ℕ, [], ◌++◌, length, vec_len, drop, map, true, false, IfSome};

use crate::spawner::Spawner;
use crate::worker::{Feeder, Worker};
use std::alloc::Global;
use std::snapshot::Snapshot;
use std::sync::Wait;
use std::thread;
use std::thread::{Promise, PromisedHandle, Scope, Threads};

/// Runs the workers of a feeder as a spawner says. False where one wasn't started.
pub(crate) fn run_workers<S: Spawner, F: Feeder, R: Threads + Wait + Sync>(
    spawner: &S,
    rt: &R,
    alloc: Global,
    feeder: F,
) -> (F, bool)
    requires { F.given feeder ≡ [] }
    ensures later { F.later feeder result.0 }
    ensures ended { result.1 ≡ true → F.has_ended result.0 }
    ensures all { result.1 ≡ true → F.given result.0 ≡ [] }
    ensures dropped { length (F.given result.0) ≤ 1 }
    ensures refused { S.has_threads spawner.now ≡ false → result.1 ≡ false
        → (start : ℕ) × S.refused spawner.now start }
{
    if spawner.uses_threads() {
        run_on_threads(spawner, rt, alloc, feeder)
    } else {
        run_in_turn(spawner, rt, feeder)
    }
}

/// Runs the workers one after another, in this thread. False where one wasn't started.
fn run_in_turn<S: Spawner, F: Feeder, R: Wait>(spawner: &S, rt: &R, mut feeder: F) -> (F, bool)
    requires { F.given feeder ≡ [] }
    ensures later { F.later feeder result.0 }
    ensures ended { result.1 ≡ true → F.has_ended result.0 }
    ensures all { result.1 ≡ true → F.given result.0 ≡ [] }
    ensures dropped { length (F.given result.0) ≤ 1 }
    ensures refused { result.1 ≡ false → (start : ℕ) × S.refused spawner.now start }
{
    let mut start = 0u64;
    'running: for _ in rt.forever() {
        let Some(worker) = feeder.next() else {
            return (feeder, true);
        };
        start = start.saturating_add(1);
        if spawner.refuses(start) {
            return (feeder, false);
        }
        feeder.take_back(worker.work());
    }
    unreachable!()
}

/// Which worker a thread runs, and so what it hands back.
#[derive(Drop)]
struct Given<W: Worker>(Snapshot<W>);

impl<W: Worker> Promise<W::Done> for Given<W> {
    ghost kept_by = { λ given done. W.gives given.0.value done };
}

/// A worker that was started.
#[derive(Drop)]
struct Started<W: Worker> {
    handle: PromisedHandle<W::Done, Given<W>>,
}

/// Runs the workers of a feeder in a scope of threads. False where one wasn't started.
fn run_on_threads<S: Spawner, F: Feeder, R: Threads + Wait + Sync>(
    spawner: &S,
    rt: &R,
    alloc: Global,
    feeder: F,
) -> (F, bool)
    requires { F.given feeder ≡ [] }
    ensures later { F.later feeder result.0 }
    ensures ended { result.1 ≡ true → F.has_ended result.0 }
    ensures all { result.1 ≡ true → F.given result.0 ≡ [] }
    ensures dropped { length (F.given result.0) ≤ 1 }
{
    thread::scope(
        thread::scope_env(),
        rt,
        |scope|
            requires { F.given feeder ≡ [] }
            ensures { F.later feeder result.0
                × (result.1 ≡ true → F.has_ended result.0)
                × (result.1 ≡ true → F.given result.0 ≡ [])
                × (length (F.given result.0) ≤ 1) }
        { run_in(scope, spawner, rt, alloc, feeder) },
    )
}

/// Starts the workers of a feeder, and takes them back. False where one wasn't started.
fn run_in<'s, E, S: Spawner, F: Feeder, R: Threads + Wait>(
    scope: &Scope<'s, E>,
    spawner: &S,
    rt: &R,
    alloc: Global,
    feeder: F,
) -> (F, bool)
where
    F::W: 's,
    requires { F.given feeder ≡ [] }
    ensures later { F.later feeder result.0 }
    ensures ended { result.1 ≡ true → F.has_ended result.0 }
    ensures all { result.1 ≡ true → F.given result.0 ≡ [] }
    ensures dropped { length (F.given result.0) ≤ 1 }
{
    let (feeder, started, all_ran) = start_all(scope, spawner, rt, alloc, feeder);
    (join_all(rt, feeder, started), all_ran)
}

/// Starts each worker until no further one is given. False where one wasn't started.
fn start_all<'s, E, S: Spawner, F: Feeder, R: Wait>(
    scope: &Scope<'s, E>,
    spawner: &S,
    rt: &R,
    alloc: Global,
    mut feeder: F,
) -> (F, Vec<Started<F::W>>, bool)
where
    F::W: 's,
    requires { F.given feeder ≡ [] }
    ensures later { F.later feeder result.0 }
    ensures ended { result.2 ≡ true → F.has_ended result.0 }
    ensures first { F.given result.0 ≡ map (λ one. one.handle.promise.0.value) result.1.items
        ++ drop (vec_len result.1) (F.given result.0) }
    ensures all { result.2 ≡ true → length (F.given result.0) ≡ vec_len result.1 }
    ensures dropped { length (F.given result.0) ≤ vec_len result.1 + 1 }
{
    let mut started: Vec<Started<F::W>> = Vec::new(alloc);
    let mut number = 0u64;
    'starting: for _ in rt.forever() {
        if started.reserve(1).is_err() {
            return (feeder, started, false);
        }
        let Some(worker) = feeder.next() else {
            return (feeder, started, true);
        };
        number = number.saturating_add(1);
        if spawner.refuses(number) {
            return (feeder, started, false);
        }
        let Some(one) = start(scope, worker) else {
            return (feeder, started, false);
        };
        started.push_reserved(one);
    }
    unreachable!()
}

/// Starts a worker, or drops it where no thread can be made.
fn start<'s, E, W: Worker + 's>(scope: &Scope<'s, E>, worker: W) -> Option<Started<W>>
    ensures { IfSome result (λ one. one.handle.promise.0.value ≡ worker) }
{
    let promise = Given(Snapshot::of(&worker));
    let handle = scope.spawn_with(promise, move || worker.work()).ok()?;
    Some(Started { handle })
}

/// Has the feeder take back what the workers that were started hand back, in their order.
fn join_all<F: Feeder, R: Threads>(rt: &R, mut feeder: F, started: Vec<Started<F::W>>) -> F
    requires { F.given feeder ≡ map (λ one. one.handle.promise.0.value) started.items
        ++ drop (vec_len started) (F.given feeder) }
    ensures later { F.later feeder result }
    ensures ended { F.has_ended feeder → F.has_ended result }
    ensures left { F.given result ≡ drop (vec_len started) (F.given feeder) }
{
    'joining: for one in started {
        let Started { handle } = one;
        feeder.take_back(handle.join(rt));
    }
    feeder
}
