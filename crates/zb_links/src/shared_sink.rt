//! One sink for two handles.

ghost use Rattle.std.specs.Prelude.{◌≡◌, ◌≤◌, ◌<◌, true, false, length, None, IfOk, IsErr, OnOk, OnErr};
ghost use Rattle.std.specs.Io.KnownBytes.{Appends, WriteAppends};
ghost use Rattle.zb_base.specs.Counts.{Rose};
ghost use Rattle.zb_outside.specs.Written.{AppendsPrefix};

use std::alloc::{AllocError, Global};
use std::sync::{Arc, Mutex, Wait};
use zb_outside::{Failed, Sink, write_all};

/// A handle of a sink that has another handle, so that two threads can write to it. Each write
/// gives all its bytes to the sink in one hold of a lock, so no write of the other handle comes
/// between them. Once a write of either failed, some front of its bytes may have been taken, and
/// each later write of both fails, and is counted at the handle that made it. It tells nothing of
/// the bytes.
#[derive(Drop)]
pub struct SharedSink<'a, O: Sink + Drop, R: Wait> {
    rt: &'a R,
    shared: Arc<Mutex<Guarded<O>>, Global>,
    faults: u64,
}

impl<'a, O: Sink + Drop, R: Wait> SharedSink<'a, O, R> {
    /// Two handles of a sink, of which no write failed yet. Where there is no memory, the sink is
    /// dropped.
    pub fn pair(
        rt: &'a R,
        alloc: Global,
        out: O,
    ) -> Result<(SharedSink<'a, O, R>, SharedSink<'a, O, R>), AllocError>
        ensures first { IfOk result (λ both. ⟦<SharedSink<'a, O, R> as Sink>⟧.faults both.0 ≡ 0) }
        ensures second { IfOk result (λ both. ⟦<SharedSink<'a, O, R> as Sink>⟧.faults both.1 ≡ 0) }
    {
        let sink = Guarded {
            sink: out,
            has_failed: false,
        };
        let shared = Arc::new(alloc, Mutex::new(sink))?;
        let other = SharedSink {
            rt,
            shared: Arc::try_clone(&shared)?,
            faults: 0,
        };
        let this = SharedSink {
            rt,
            shared,
            faults: 0,
        };
        Ok((this, other))
    }

    /// How many writes of this handle failed.
    pub fn faults(&self) -> u64
        ensures { result ≡ ⟦<SharedSink<'a, O, R> as Sink>⟧.faults self.now }
    {
        self.faults
    }
}

/// The sink under the lock, and whether a write failed.
#[derive(Drop)]
struct Guarded<O: Sink + Drop> {
    sink: O,
    has_failed: bool,
}

impl<O: Sink + Drop> Guarded<O> {
    /// Gives all the bytes to the sink, unless a write failed before.
    #[tactic(auto, using(zb_outside::specs::WrittenLaws::no_front))]
    fn write_whole(&mut self, bytes: &[u8]) -> Result<(), Failed>
        ensures ok { OnOk result
            (Appends (O.taken self.old.sink) (O.taken self.new.sink) bytes.now) }
        ensures err { OnErr result
            (AppendsPrefix (O.taken self.old.sink) (O.taken self.new.sink) bytes.now) }
        ensures lasting { self.old.has_failed ≡ true → IsErr result × (self.new ≡ self.old) }
        ensures failed { OnErr result (self.new.has_failed ≡ true) }
        ensures whole { OnOk result (self.new.has_failed ≡ false) }
    {
        if self.has_failed {
            return Err(Failed);
        }
        let written = write_all(&mut self.sink, bytes);
        self.has_failed = written.is_err();
        written
    }
}

impl<'a, O: Sink + Drop, R: Wait> Sink for SharedSink<'a, O, R> {
    ghost taken = { λ _. None };

    ghost faults = { λ sink. sink.faults };

    /// It takes all the bytes. Once a write of this handle or of the other failed, each later one
    /// fails.
    fn write(&mut self, bytes: &[u8]) -> Result<usize, Failed>
        ensures fits { IfOk result (λ count. count ≤ length bytes.now) }
        ensures some { IfOk result (λ count. 0 < length bytes.now → 0 < count) }
        ensures bytes { WriteAppends None None result bytes.now }
        ensures failed { OnErr result (Rose self.old.faults self.new.faults) }
        ensures counted { self.old.faults ≤ self.new.faults }

        ensures all { IfOk result (λ count. count ≡ length bytes.now) }
        ensures same { OnOk result (self.new.faults ≡ self.old.faults) }
        ensures lasting { 0 < self.old.faults → IsErr result }
    {
        if self.faults > 0 || self.shared.lock(self.rt).write_whole(bytes).is_err() {
            self.faults = self.faults.saturating_add(1);
            return Err(Failed);
        }
        Ok(bytes.len())
    }
}
