//! A volume as its users see it: what a read gives, and what a crash may leave.

ghost use Rattle.std.specs.Prelude.{◌≡◌, ℕ, ◌+◌, ◌<◌, ◌≤◌, ◌^◌, ◌∷◌, length, take, drop, Bool, true, false, is_err, OnOk, OnErr, IfOk};
ghost use Rattle.zb_volume.specs.Calls.{Wrote, Cut, Synced, Replaced};
ghost use Rattle.zb_volume.specs.Disk.{seen, area_length};
ghost use Rattle.zb_volume.specs.Images.{CrashLeaves};
ghost use Rattle.zb_volume.specs.Faults.{Fails};
ghost use Rattle.zb_volume.specs.States.{OnlyReads, OnlyWrites};
ghost use Rattle.zb_base.specs.Bytes.{AreBytes};

use crate::{Area, StoreFault};

/// A disk with areas.
///
/// Contracts see it as the log of the calls that changed it and its two counts of faults. What a read
/// gives of an area, what a crash at this moment may leave of it, and what a crash at an earlier
/// moment might have left are definitions over the log (own; a disk that writes each byte by itself,
/// in any order, until a sync). The log is told where the type says so; over files of the host it
/// isn't, and then only the clauses on faults, bounds and counts say something.
///
/// A call that fails is counted, in one count for `len` and `read` and in another for the rest. A
/// count stands still at 2^64 - 1.
pub trait Volume {
    ghost use Rattle.zb_volume.specs.declared.areas.Area.{Area};
    ghost use Rattle.zb_volume.specs.States.{VolumeState};

    /// Whether volumes of this type tell their calls.
    ghost told: { Type 0 };

    /// What contracts see of a volume.
    ghost state: { Self → VolumeState };

    /// What else is known of a call: whether it is `len` or `read`, the volume before it, whether it
    /// failed, and the volume after it.
    ghost called: { Bool → Self → Bool → Self → Type 0 };

    /// The length of an area in bytes, which is at most 2^63 - 1.
    fn len(&mut self, area: Area) -> Result<u64, StoreFault>
        ensures value { told → IfOk result (λ n. n ≡ area_length (state self.old).log area) }
        ensures limit { IfOk result (λ n. n < 2 ^ 63) }
        ensures bytes { told → OnOk result (AreBytes (seen (state self.old).log area)) }
        ensures read { OnlyReads (state self.old) (state self.new) result }
        ensures called { called true self.old (is_err result) self.new };

    /// Fills `out` with the bytes of an area from `at` on. They must all stand there. After a fault
    /// `out` holds anything.
    fn read(&mut self, area: Area, at: u64, out: &mut [u8]) -> Result<(), StoreFault>
        requires { told → at + length out.old ≤ area_length (state self.old).log area }
        ensures bytes { told → OnOk result
            (out.new ≡ take (length out.old) (drop at (seen (state self.old).log area))) }
        ensures read { OnlyReads (state self.old) (state self.new) result }
        ensures called { called true self.old (is_err result) self.new };

    /// Puts bytes into an area from `at` on, in the place of what stands there and past its end. The
    /// place must be at most the area's length. A write that would make the area longer than
    /// 2^63 - 1 bytes is a fault.
    fn write_at(&mut self, area: Area, at: u64, bytes: &[u8]) -> Result<(), StoreFault>
        requires { told → at ≤ area_length (state self.old).log area }
        ensures done { told → OnOk result ((state self.new).log ≡ Wrote area at bytes.now
            ∷ (state self.old).log) }
        ensures failed { told → OnErr result
            (Fails (Wrote area at bytes.now) (state self.old).log (state self.new).log) }
        ensures limit { OnOk result (at + length bytes.now < 2 ^ 63) }
        ensures write { OnlyWrites (state self.old) (state self.new) result }
        ensures called { called false self.old (is_err result) self.new };

    /// Cuts an area to `length` bytes, of which it must have as many.
    fn cut(&mut self, area: Area, length: u64) -> Result<(), StoreFault>
        requires { told → length ≤ area_length (state self.old).log area }
        ensures done { told → OnOk result ((state self.new).log ≡ Cut area length
            ∷ (state self.old).log) }
        ensures failed { told →
            OnErr result (Fails (Cut area length) (state self.old).log (state self.new).log) }
        ensures write { OnlyWrites (state self.old) (state self.new) result }
        ensures called { called false self.old (is_err result) self.new };

    /// Makes sure of an area: once this is done, a crash leaves of it what a read gives.
    fn sync(&mut self, area: Area) -> Result<(), StoreFault>
        ensures done { told → OnOk result ((state self.new).log ≡ Synced area
            ∷ (state self.old).log) }
        ensures failed { told →
            OnErr result (Fails (Synced area) (state self.old).log (state self.new).log) }
        ensures write { OnlyWrites (state self.old) (state self.new) result }
        ensures called { called false self.old (is_err result) self.new };

    /// Puts Side in the place of Main in one step; Side is then empty. What of Side was not synced
    /// before is pending in Main.
    fn replace(&mut self) -> Result<(), StoreFault>
        ensures done { told → OnOk result ((state self.new).log ≡ Replaced ∷ (state self.old).log) }
        ensures failed { told →
            OnErr result (Fails Replaced (state self.old).log (state self.new).log) }
        ensures write { OnlyWrites (state self.old) (state self.new) result }
        ensures called { called false self.old (is_err result) self.new };

    /// What a read gives is also something that a crash may leave.
    ghost seen_is_left: { (volume : Self) (area : Area) → told → CrashLeaves (state volume).log area (seen (state volume).log area) };
}
