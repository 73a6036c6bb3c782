//! Workers that meet at a barrier, and a feeder that notes what they hand back.

ghost use Rattle.std.specs.Prelude.{◌≡◌};

use std::collections::VecDeque;
use std::snapshot::Snapshot;
use std::sync::{Barrier, Wait};
use zb_links::{Feeder, Worker};

/// Waits until as many have come to the barrier as it is for, and hands back its number.
#[derive(Drop)]
pub struct Meets<'a, R: Wait + Sync> {
    rt: &'a R,
    barrier: &'a Barrier,
    number: u64,
}

impl<'a, R: Wait + Sync> Worker for Meets<'a, R> {
    type Done = u64;

    ghost gives = { λ worker done. done ≡ worker.number };

    fn work(self) -> u64 {
        self.barrier.wait(self.rt);
        self.number
    }
}

/// Gives workers with the numbers from 0 on, and notes the numbers that come back.
#[derive(Drop)]
pub struct Numbers<'a, R: Wait + Sync> {
    pub rt: &'a R,
    pub barrier: &'a Barrier,
    pub next: u64,
    pub count: u64,
    pub back: Vec<u64>,
    pub waiting: VecDeque<Snapshot<Meets<'a, R>>>,
    pub has_ended: bool,
}

impl<'a, R: Wait + Sync> Feeder for Numbers<'a, R> {
    ghost use Rattle.std.specs.Prelude.{map, true, ⊤};
    ghost use Rattle.std.proofs.Common.{rules};

    type W = Meets<'a, R>;

    ghost given = { λ feeder. map (λ worker. worker.value) feeder.waiting.items };

    ghost has_ended = { λ feeder. feeder.has_ended ≡ true };

    ghost later = { λ _ _. ⊤ };

    fn next(&mut self) -> Option<Meets<'a, R>> {
        let worker = Meets {
            rt: self.rt,
            barrier: self.barrier,
            number: self.next,
        };
        if self.next >= self.count || self.waiting.push_back(Snapshot::of(&worker)).is_err() {
            self.has_ended = true;
            return None;
        }
        self.next += 1;
        Some(worker)
    }

    fn take_back(&mut self, number: u64) {
        let _ = self.waiting.pop_front();
        let _ = self.back.push(number);
    }

    ghost later_is_reflexive = { Prim.search rules };

    ghost later_is_transitive = { Prim.search rules };
}
