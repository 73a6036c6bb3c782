//! A sink in memory.

ghost use Rattle.std.specs.Prelude.{◌≡◌, ◌≤◌, ◌<◌, ◌⊎◌, ℕ, [], Contains, length, Some, IfOk, IsErr, OnOk, OnErr};
ghost use Rattle.std.specs.Io.KnownBytes.{WriteAppends};
ghost use Rattle.zb_outside.specs.MemoryState.{SinkState};
ghost use Rattle.zb_base.specs.Counts.{Rose, one_more};

use crate::failed::Failed;
use crate::sink::Sink;
use std::alloc::Global;
use std::marker::Model;

/// A sink that keeps the bytes in memory, and fails at the calls that it is told. Where it finds no
/// memory it fails as well, and counts that as starved too.
#[derive(Debug, Drop)]
pub struct MemorySink {
    bytes: Vec<u8>,
    failing: Vec<u64>,
    calls: u64,
    faults: u64,
    starved: u64,
}

impl Model for MemorySink {
    ghost use Rattle.zb_outside.specs.MemoryState.{SinkState};

    ghost Value = { SinkState };

    ghost view = { λ sink. record {
      taken = sink.bytes.items;
      failing = sink.failing.items;
      calls = sink.calls;
      faults = sink.faults;
      starved = sink.starved;
    } };
}

impl MemorySink {
    /// A sink that took nothing yet. The calls whose numbers are in `failing` will fail, the first
    /// call being number 1. It takes no memory until it is written to.
    pub fn new(alloc: Global, failing: Vec<u64>) -> MemorySink
        ensures { result ≡ record {
          taken = [];
          failing = failing.items;
          calls = 0;
          faults = 0;
          starved = 0;
        } }
    {
        MemorySink {
            bytes: Vec::new(alloc),
            failing,
            calls: 0,
            faults: 0,
            starved: 0,
        }
    }

    /// The bytes that were taken.
    pub fn bytes(&self) -> &[u8]
        ensures { result.now ≡ self.now.taken }
    {
        self.bytes.as_slice()
    }

    /// How many calls failed.
    pub fn faults(&self) -> u64
        ensures { result ≡ self.now.faults }
    {
        self.faults
    }

    /// How many calls found no memory.
    pub fn starved(&self) -> u64
        ensures { result ≡ self.now.starved }
    {
        self.starved
    }
}

impl Sink for MemorySink {
    ghost taken = { λ sink. Some sink.taken };

    ghost faults = { λ sink. sink.faults };

    /// It fails exactly where the number of the call is told or there is no memory, and else takes
    /// all the bytes.
    fn write(&mut self, bytes: &[u8]) -> Result<usize, Failed>
        ensures fits { IfOk result (λ count. count ≤ length bytes.now) }
        ensures some { IfOk result (λ count. 0 < length bytes.now → 0 < count) }
        ensures bytes { WriteAppends (Some self.old.taken) (Some self.new.taken) result bytes.now }
        ensures failed { OnErr result (Rose self.old.faults self.new.faults) }
        ensures counted { self.old.faults ≤ self.new.faults }

        ensures all { IfOk result (λ count. count ≡ length bytes.now) }
        ensures told { Contains self.old.failing self.new.calls
            → IsErr result × (self.new.starved ≡ self.old.starved) }
        ensures else_starved { OnErr result (Contains self.old.failing self.new.calls
            ⊎ (self.new.starved ≡ one_more self.old.starved)) }
        ensures starved_ok { OnOk result (self.new.starved ≡ self.old.starved) }
        ensures calls { self.new.calls ≡ one_more self.old.calls }
        ensures faults_ok { OnOk result (self.new.faults ≡ self.old.faults) }
        ensures faults_err { OnErr result (self.new.faults ≡ one_more self.old.faults) }
        ensures kept { self.new.failing ≡ self.old.failing }
    {
        self.calls = self.calls.saturating_add(1);
        if self.failing.contains(&self.calls) {
            self.faults = self.faults.saturating_add(1);
            return Err(Failed);
        }
        if self.bytes.extend_from_slice(bytes).is_err() {
            self.faults = self.faults.saturating_add(1);
            self.starved = self.starved.saturating_add(1);
            return Err(Failed);
        }
        Ok(bytes.len())
    }
}
