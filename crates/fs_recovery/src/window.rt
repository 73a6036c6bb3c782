//! Main is read forward through a window.

ghost use Rattle.std.specs.Prelude.{◌≡◌, ◌+◌, ◌<◌, ◌≤◌, ◌^◌, length, take, drop, false, OnOk};
ghost use Rattle.fs_recovery.specs.Reading.{Covers};
ghost use Rattle.fs_recovery.specs.Windows.{Shows};
ghost use Rattle.zb_volume.specs.Disk.{main_bytes};
ghost use Rattle.zb_volume.specs.States.{OnlyReads};

use crate::held::{AHEAD, Piece, Window, at_most};
use zb_volume::{StoreFault, Volume};

/// How many bytes are read at a place that lies further past what is held than that.
const SHORT: usize = 512;

impl<const N: usize> Window<N> {
    /// A window on a Main of this length, which holds nothing yet.
    pub fn new(long: u64) -> Self
        requires { long < 2 ^ 63 }
        ensures near { result.near.count ≡ 0 }
        ensures ahead { result.ahead.count ≡ 0 }
        ensures length { result.length ≡ long }
    {
        Window {
            length: long,
            near: Piece::new(),
            ahead: Piece::new(),
        }
    }

    /// How many bytes to read at a place: as many as there is room for, or few where the place lies far
    /// past what is held, since long content may stand between.
    fn reach(&self, at: u64) -> usize
        requires { 42 ≤ N }
        ensures least { 42 ≤ result }
        ensures most { result ≤ N }
    {
        let near = &self.near;
        if at >= near.at && (at - near.at).saturating_sub(near.count as u64) <= SHORT as u64 {
            return N;
        }
        SHORT.min(N)
    }

    /// Holds the n bytes at a place, and more behind them, where it doesn't hold them already.
    fn fill<V: Volume>(&mut self, volume: &mut V, at: u64, n: usize) -> Result<(), StoreFault>
        requires small { n ≤ 42 }
        requires room { 42 ≤ N }
        requires within { at + n ≤ self.old.length }
        requires shows { V.told → Shows self.old (main_bytes (V.state volume.old).log) }
        ensures shows { V.told → Shows self.new (main_bytes (V.state volume.old).log) }
        ensures covers { OnOk result (Covers self.new.near.at self.new.near.count at n) }
        ensures length { self.new.length ≡ self.old.length }
        ensures read { OnlyReads (V.state volume.old) (V.state volume.new) result }
    {
        if self.near.covers(at, n) {
            return Ok(());
        }
        let m = at_most(self.length - at, self.reach(at));
        self.near.fill(volume, at, m)?;
        Ok(())
    }

    /// Fills `out` with bytes that the near piece doesn't hold. Where they weren't read ahead either, they
    /// are read now: into the near piece, which goes there, or where it is to stay, ahead of it, with a
    /// few that stand behind them. Called from `read` and `peek`, which look first where most are found.
    #[inline(never)]
    fn read_apart<V: Volume>(
        &mut self,
        volume: &mut V,
        at: u64,
        out: &mut [u8],
        stays: bool,
    ) -> Result<(), StoreFault>
        requires small { length out.old ≤ 128 }
        requires near { stays ≡ false → (length out.old ≤ 42) × (42 ≤ N) }
        requires within { at + length out.old ≤ self.old.length }
        requires shows { V.told → Shows self.old (main_bytes (V.state volume.old).log) }
        ensures bytes { V.told →
            OnOk result (out.new ≡ take (length out.old)
            (drop at (main_bytes (V.state volume.old).log))) }
        ensures shows { V.told → Shows self.new (main_bytes (V.state volume.old).log) }
        ensures length { self.new.length ≡ self.old.length }
        ensures read { OnlyReads (V.state volume.old) (V.state volume.new) result }
    {
        let n = out.len();
        if self.ahead.covers(at, n) {
            self.ahead.give(at, out);
            return Ok(());
        }
        if stays {
            let m = at_most(self.length - at, AHEAD);
            self.ahead.fill(volume, at, m)?;
            self.ahead.give(at, out);
            return Ok(());
        }
        self.fill(volume, at, n)?;
        self.near.give(at, out);
        Ok(())
    }

    /// Fills `out` with the bytes at a place.
    #[inline(always)]
    pub fn read<V: Volume, const M: usize>(
        &mut self,
        volume: &mut V,
        at: u64,
        out: &mut [u8; M],
    ) -> Result<(), StoreFault>
        requires small { length out.old ≤ 42 }
        requires room { 42 ≤ N }
        requires within { at + length out.old ≤ self.old.length }
        requires shows { V.told → Shows self.old (main_bytes (V.state volume.old).log) }
        ensures bytes { V.told →
            OnOk result (out.new ≡ take (length out.old)
            (drop at (main_bytes (V.state volume.old).log))) }
        ensures shows { V.told → Shows self.new (main_bytes (V.state volume.old).log) }
        ensures length { self.new.length ≡ self.old.length }
        ensures read { OnlyReads (V.state volume.old) (V.state volume.new) result }
    {
        let n = out.len();
        if self.near.covers(at, n) {
            self.near.give(at, out.as_mut_slice());
            return Ok(());
        }
        self.read_apart(volume, at, out.as_mut_slice(), false)
    }

    /// Fills `out` with the bytes at a place, and keeps what it holds, wherever that is: where it
    /// doesn't hold them, they are read with a few that stand behind them.
    #[inline(always)]
    pub fn peek<V: Volume, const M: usize>(
        &mut self,
        volume: &mut V,
        at: u64,
        out: &mut [u8; M],
    ) -> Result<(), StoreFault>
        requires small { length out.old ≤ 128 }
        requires within { at + length out.old ≤ self.old.length }
        requires shows { V.told → Shows self.old (main_bytes (V.state volume.old).log) }
        ensures bytes { V.told →
            OnOk result (out.new ≡ take (length out.old)
            (drop at (main_bytes (V.state volume.old).log))) }
        ensures shows { V.told → Shows self.new (main_bytes (V.state volume.old).log) }
        ensures length { self.new.length ≡ self.old.length }
        ensures read { OnlyReads (V.state volume.old) (V.state volume.new) result }
    {
        let n = out.len();
        if self.near.covers(at, n) {
            self.near.give(at, out.as_mut_slice());
            return Ok(());
        }
        self.read_apart(volume, at, out.as_mut_slice(), true)
    }
}
