//! Pieces of Hint, as they are read.

ghost use Rattle.std.specs.Prelude.{◌≡◌, ◌+◌, ◌-◌, ◌<◌, ◌≤◌, ◌^◌, length, min, take, drop, true, IfOk, OnOk};
ghost use Rattle.zb_volume.specs.declared.areas.Area.{Area};
ghost use Rattle.zb_volume.specs.Disk.{area_length, seen};
ghost use Rattle.zb_volume.specs.States.{OnlyReads};
ghost use Rattle.fs_recovery.specs.Reading.{Covers, Holds};
ghost use Rattle.fs_index_file.specs.Hints.{head_of, record_of, start_of};

use crate::entries::{
    HEAD_LENGTH, Head, RECORD_LENGTH, START_LENGTH, Start, head_in, record_in, start_in,
};
use fs_index::Placed;
use zb_volume::{Area, StoreFault, Volume};

/// Up to N bytes of Hint, from a place on.
#[derive(Drop)]
pub struct Piece<const N: usize> {
    /// How many bytes Hint has.
    pub length: u64,
    /// From which place on bytes are held.
    pub at: u64,
    /// How many.
    pub count: usize,
    /// The bytes, and behind them anything.
    pub held: [u8; N],
    ghost within: { count ≤ N },
    ghost limit: { length < 2 ^ 63 },
}

impl<const N: usize> Piece<N> {
    /// A piece of a Hint of this length, which holds nothing yet.
    pub fn new(length: u64) -> Self
        requires { length < 2 ^ 63 }
        ensures empty { result.count ≡ 0 }
        ensures length { result.length ≡ length }
    {
        Piece {
            length,
            at: 0,
            count: 0,
            held: [0; N],
        }
    }

    /// Whether the n bytes at a place are held.
    fn covers(&self, at: u64, n: usize) -> bool
        ensures { result ≡ true → Covers self.now.at self.now.count at n }
    {
        at >= self.at
            && at - self.at <= self.count as u64
            && n <= self.count - (at - self.at) as usize
    }

    /// Holds the bytes at a place, as many as there are and as there is room for.
    fn fill<V: Volume>(&mut self, volume: &mut V, at: u64) -> Result<(), StoreFault>
        requires within { at ≤ self.old.length }
        requires length { V.told →
            self.old.length ≡ area_length (V.state volume.old).log Area.Hint }
        ensures shows { V.told → Holds self.new.at self.new.count self.new.held
            (seen (V.state volume.old).log Area.Hint) }
        ensures at { OnOk result (self.new.at ≡ at) }
        ensures count { OnOk result (self.new.count ≡ min (self.old.length - at) N) }
        ensures length { self.new.length ≡ self.old.length }
        ensures read { OnlyReads (V.state volume.old) (V.state volume.new) result }
    {
        let mut m = N;
        if self.length - at < N as u64 {
            m = (self.length - at) as usize;
        }
        self.count = 0;
        self.at = at;
        volume.read(Area::Hint, at, &mut self.held[..m])?;
        self.count = m;
        Ok(())
    }

    /// The n bytes at a place, which are held.
    fn piece(&self, at: u64, n: usize) -> &[u8]
        requires { Covers self.now.at self.now.count at n }
        ensures bytes { result.now ≡ take n (drop (at - self.now.at) self.now.held) }
        ensures long { length result.now ≡ n }
    {
        let from = (at - self.at) as usize;
        let all = &self.held[..];
        &all[from..from + n]
    }

    /// Fills `out` with the bytes at a place.
    fn read<V: Volume, const M: usize>(
        &mut self,
        volume: &mut V,
        at: u64,
        out: &mut [u8; M],
    ) -> Result<(), StoreFault>
        requires small { length out.old ≤ N }
        requires within { at + length out.old ≤ self.old.length }
        requires length { V.told →
            self.old.length ≡ area_length (V.state volume.old).log Area.Hint }
        requires shows { V.told → Holds self.old.at self.old.count self.old.held
            (seen (V.state volume.old).log Area.Hint) }
        ensures bytes { V.told → OnOk result (out.new ≡ take (length out.old)
            (drop at (seen (V.state volume.old).log Area.Hint))) }
        ensures shows { V.told → Holds self.new.at self.new.count self.new.held
            (seen (V.state volume.old).log Area.Hint) }
        ensures length { self.new.length ≡ self.old.length }
        ensures read { OnlyReads (V.state volume.old) (V.state volume.new) result }
    {
        let n = out.len();
        if self.covers(at, n) {
            out.copy_from_slice(self.piece(at, n));
            return Ok(());
        }
        self.fill(volume, at)?;
        out.copy_from_slice(self.piece(at, n));
        Ok(())
    }

    /// The head of Hint.
    pub fn read_head<V: Volume>(&mut self, volume: &mut V) -> Result<Head, StoreFault>
        requires small { 25 ≤ N }
        requires within { 25 ≤ self.old.length }
        requires length { V.told →
            self.old.length ≡ area_length (V.state volume.old).log Area.Hint }
        requires shows { V.told → Holds self.old.at self.old.count self.old.held
            (seen (V.state volume.old).log Area.Hint) }
        ensures value { V.told → IfOk result (λ h. h
            ≡ head_of (seen (V.state volume.old).log Area.Hint)) }
        ensures shows { V.told → Holds self.new.at self.new.count self.new.held
            (seen (V.state volume.old).log Area.Hint) }
        ensures length { self.new.length ≡ self.old.length }
        ensures read { OnlyReads (V.state volume.old) (V.state volume.new) result }
    {
        let mut buffer = [0; HEAD_LENGTH];
        self.read(volume, 0, &mut buffer)?;
        Ok(head_in(&buffer))
    }

    /// The entry of a transaction at a place of Hint.
    pub fn start_at<V: Volume>(&mut self, volume: &mut V, at: u64) -> Result<Start, StoreFault>
        requires small { 25 ≤ N }
        requires within { at + 17 ≤ self.old.length }
        requires length { V.told →
            self.old.length ≡ area_length (V.state volume.old).log Area.Hint }
        requires shows { V.told → Holds self.old.at self.old.count self.old.held
            (seen (V.state volume.old).log Area.Hint) }
        ensures value { V.told → IfOk result (λ s. s
            ≡ start_of (drop at (seen (V.state volume.old).log Area.Hint))) }
        ensures shows { V.told → Holds self.new.at self.new.count self.new.held
            (seen (V.state volume.old).log Area.Hint) }
        ensures length { self.new.length ≡ self.old.length }
        ensures read { OnlyReads (V.state volume.old) (V.state volume.new) result }
    {
        let mut buffer = [0; START_LENGTH];
        self.read(volume, at, &mut buffer)?;
        Ok(start_in(&buffer))
    }

    /// The entry of a data record at a place of Hint.
    pub fn record_at<V: Volume>(&mut self, volume: &mut V, at: u64) -> Result<Placed, StoreFault>
        requires small { 25 ≤ N }
        requires within { at + 24 ≤ self.old.length }
        requires length { V.told →
            self.old.length ≡ area_length (V.state volume.old).log Area.Hint }
        requires shows { V.told → Holds self.old.at self.old.count self.old.held
            (seen (V.state volume.old).log Area.Hint) }
        ensures value { V.told → IfOk result (λ x. x
            ≡ record_of (drop at (seen (V.state volume.old).log Area.Hint))) }
        ensures shows { V.told → Holds self.new.at self.new.count self.new.held
            (seen (V.state volume.old).log Area.Hint) }
        ensures length { self.new.length ≡ self.old.length }
        ensures read { OnlyReads (V.state volume.old) (V.state volume.new) result }
    {
        let mut buffer = [0; RECORD_LENGTH];
        self.read(volume, at, &mut buffer)?;
        Ok(record_in(&buffer))
    }
}
