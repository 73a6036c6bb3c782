//! A sink for bytes.

ghost use Rattle.std.specs.Prelude.{◌≡◌, ◌≤◌, ◌<◌, ℕ, List, Option, length, IfOk, OnOk, OnErr};
ghost use Rattle.std.specs.Io.KnownBytes.{WriteAppends};
ghost use Rattle.zb_base.specs.Counts.{Rose};

use crate::failed::Failed;

/// Takes bytes to the outside, in order.
pub trait Sink {
    /// The bytes that were taken so far, where the sink tells.
    ghost taken: { Self → Option (List ℕ) };

    /// How many calls failed, from 0 to 2^64-1, where the count stays.
    ghost faults: { Self → ℕ };

    /// Takes a front of `bytes` and answers its length, at least 1 where `bytes` isn't empty. It is
    /// `Failed` only where the count of faults rose, and then what was taken is as before; else the
    /// count stands.
    fn write(&mut self, bytes: &[u8]) -> Result<usize, Failed>
        ensures fits { IfOk result (λ count. count ≤ length bytes.now) }
        ensures some { IfOk result (λ count. 0 < length bytes.now → 0 < count) }
        ensures bytes { WriteAppends (taken self.old) (taken self.new) result bytes.now }
        ensures failed { OnErr result (Rose (faults self.old) (faults self.new)) }
        ensures counted { faults self.old ≤ faults self.new }
        ensures uncounted { OnOk result (faults self.new ≡ faults self.old) };
}
