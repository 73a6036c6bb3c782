//! A source in memory.

ghost use Rattle.std.specs.Prelude.{◌≡◌, ◌≤◌, ◌<◌, ◌↔◌, ℕ, [], All, Contains, length, min, Some, IfOk, IsErr, IsOk, OnOk, OnErr};
ghost use Rattle.std.specs.Io.KnownBytes.{ReadConsumes};
ghost use Rattle.zb_outside.specs.MemoryState.{SourceState};
ghost use Rattle.zb_base.specs.Counts.{Rose, one_more};

use crate::failed::Failed;
use crate::source::Source;
use std::marker::Model;

/// A source that gives the bytes of a vector, and fails at the calls that it is told.
#[derive(Debug, Drop)]
pub struct MemorySource {
    bytes: Vec<u8>,
    at: usize,
    failing: Vec<u64>,
    calls: u64,
    faults: u64,
}

impl Model for MemorySource {
    ghost use Rattle.std.specs.Prelude.{◌≤◌, drop, length};
    ghost use Rattle.zb_outside.specs.MemoryState.{SourceState};

    ghost Value = { SourceState };

    ghost view = { λ source. record {
      left = drop source.at source.bytes.items;
      failing = source.failing.items;
      calls = source.calls;
      faults = source.faults;
    } };

    ghost invariant = { λ source. source.at ≤ length source.bytes.items };
}

impl MemorySource {
    /// A source of these bytes, of which no call was made yet. The calls whose numbers are in
    /// `failing` will fail, the first call being number 1.
    pub fn new(bytes: Vec<u8>, failing: Vec<u64>) -> MemorySource
        ensures { result ≡ record {
          left = bytes.items;
          failing = failing.items;
          calls = 0;
          faults = 0;
        } }
    {
        MemorySource {
            bytes,
            at: 0,
            failing,
            calls: 0,
            faults: 0,
        }
    }

    /// The bytes that are left.
    pub fn left(&self) -> &[u8]
        ensures { result.now ≡ self.now.left }
    {
        &self.bytes[self.at..]
    }

    /// How many calls failed.
    pub fn faults(&self) -> u64
        ensures { result ≡ self.now.faults }
    {
        self.faults
    }
}

impl Source for MemorySource {
    ghost left = { λ source. Some source.left };

    ghost faults = { λ source. source.faults };

    ghost sure = { λ source. All (λ call. call < one_more source.calls) source.failing };

    /// It fails exactly where the number of the call is told, and else gives as many bytes as are
    /// left and `out` has room for.
    fn read(&mut self, out: &mut [u8]) -> Result<usize, Failed>
        ensures fits { IfOk result (λ count. count ≤ length out.new) }
        ensures bytes { ReadConsumes (Some self.old.left) (Some self.new.left) result out.new }
        ensures failed { OnErr result (Rose self.old.faults self.new.faults) }
        ensures counted { self.old.faults ≤ self.new.faults }
        ensures sure { All (λ call. call < one_more self.old.calls) self.old.failing
            → IsOk result × All (λ call. call < one_more self.new.calls) self.new.failing }

        ensures gives { IfOk result (λ count.
            count ≡ min (length out.new) (length self.old.left)) }
        ensures exactly { IsErr result ↔ Contains self.old.failing self.new.calls }
        ensures calls { self.new.calls ≡ one_more self.old.calls }
        ensures faults_ok { OnOk result (self.new.faults ≡ self.old.faults) }
        ensures faults_err { OnErr result (self.new.faults ≡ one_more self.old.faults) }
        ensures kept { self.new.failing ≡ self.old.failing }
    {
        self.calls = self.calls.saturating_add(1);
        if self.failing.contains(&self.calls) {
            self.faults = self.faults.saturating_add(1);
            return Err(Failed);
        }
        let count = out.len().min(self.bytes.len() - self.at);
        out[..count].copy_from_slice(&self.bytes[self.at..self.at + count]);
        self.at += count;
        Ok(count)
    }
}
