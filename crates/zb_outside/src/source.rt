//! A source of bytes.

ghost use Rattle.std.specs.Prelude.{◌≡◌, ◌≤◌, ℕ, List, Option, length, IfOk, IsOk, OnOk, OnErr};
ghost use Rattle.std.specs.Io.KnownBytes.{ReadConsumes};
ghost use Rattle.zb_base.specs.Counts.{Rose};

use crate::failed::Failed;

/// Bytes that come from outside, read in order and each once.
pub trait Source {
    /// The bytes that reads will give from here on, where the source tells.
    ghost left: { Self → Option (List ℕ) };

    /// How many calls failed, from 0 to 2^64-1, where the count stays.
    ghost faults: { Self → ℕ };

    /// No call will fail.
    ghost sure: { Self → Type 0 };

    /// Puts bytes at the front of `out` and answers how many: none where `out` is empty or the
    /// source is at its end. What `out` holds behind them is any bytes. It is `Failed` only where
    /// the count of faults rose, and then what is left is as before; else the count stands.
    fn read(&mut self, out: &mut [u8]) -> Result<usize, Failed>
        ensures fits { IfOk result (λ count. count ≤ length out.new) }
        ensures bytes { ReadConsumes (left self.old) (left self.new) result out.new }
        ensures failed { OnErr result (Rose (faults self.old) (faults self.new)) }
        ensures counted { faults self.old ≤ faults self.new }
        ensures uncounted { OnOk result (faults self.new ≡ faults self.old) }
        ensures sure { sure self.old → IsOk result × sure self.new };
}
