//! What is held of Main.

ghost use Rattle.std.specs.Prelude.{◌≡◌, ◌+◌, ◌-◌, ◌<◌, ◌≤◌, ◌^◌, ℕ, List, length, min, take, drop, true, OnOk};
ghost use Rattle.fs_recovery.specs.Reading.{Holds, Covers};
ghost use Rattle.zb_volume.specs.Disk.{main_bytes};
ghost use Rattle.zb_volume.specs.States.{OnlyReads};

use zb_volume::{Area, StoreFault, Volume};

/// How many bytes are read ahead: room for a closing length and the two headers that may stand behind
/// it.
pub const AHEAD: usize = 128;

/// A piece of Main that was read: up to N bytes from a place on.
#[derive(Drop)]
pub struct Piece<const N: usize> {
    /// From which place on bytes are held.
    pub at: u64,
    /// How many.
    pub count: usize,
    /// The bytes, and behind them anything.
    pub held: [u8; N],
    ghost within: { count ≤ N },
}

/// Up to N bytes of Main, from a place on, and a few that were read ahead of them. Reading forward
/// through it takes one read for each N bytes at most, and a short one for each place that lies far
/// past what it holds.
#[derive(Drop)]
pub struct Window<const N: usize> {
    /// How many bytes Main has.
    pub length: u64,
    /// What is read forward.
    pub near: Piece<N>,
    /// A closing length that was looked at, and what stands behind it.
    pub ahead: Piece<AHEAD>,
    ghost limit: { length < 2 ^ 63 },
}

/// A room, or so many bytes where it is larger.
pub fn at_most(room: u64, n: usize) -> usize
    ensures { result ≡ min room n }
{
    if room < n as u64 { room as usize } else { n }
}

impl<const N: usize> Piece<N> {
    /// A piece that holds nothing yet.
    pub fn new() -> Self
        ensures { result.count ≡ 0 }
    {
        Piece {
            at: 0,
            count: 0,
            held: [0; N],
        }
    }

    /// Whether the n bytes at a place are held.
    #[inline(always)]
    pub fn covers(&self, at: u64, n: usize) -> bool
        ensures { result ≡ true → Covers self.now.at self.now.count at n }
    {
        at >= self.at
            && at - self.at <= self.count as u64
            && n <= self.count - (at - self.at) as usize
    }

    /// Holds the m bytes at a place, of which there are as many in Main.
    pub fn fill<V: Volume>(&mut self, volume: &mut V, at: u64, m: usize) -> Result<(), StoreFault>
        requires room { m ≤ N }
        requires within { V.told → at + m ≤ length (main_bytes (V.state volume.old).log) }
        ensures holds { V.told →
            Holds self.new.at self.new.count self.new.held (main_bytes (V.state volume.old).log) }
        ensures at { OnOk result (self.new.at ≡ at) }
        ensures count { OnOk result (self.new.count ≡ m) }
        ensures read { OnlyReads (V.state volume.old) (V.state volume.new) result }
    {
        self.count = 0;
        self.at = at;
        volume.read(Area::Main, at, &mut self.held[..m])?;
        self.count = m;
        Ok(())
    }

    /// The n bytes at a place, which are held.
    #[inline(always)]
    fn piece(&self, at: u64, n: usize) -> &[u8]
        requires { Covers self.now.at self.now.count at n }
        ensures bytes { result.now ≡ take n (drop (at - self.now.at) self.now.held) }
        ensures long { length result.now ≡ n }
    {
        let from = (at - self.at) as usize;
        let all = &self.held[..];
        &all[from..from + n]
    }

    /// Fills `out` with the bytes at a place, which are held.
    #[inline(always)]
    #[tactic(auto, using(crate::specs::Seen::shown))]
    pub fn give(&self, at: u64, out: &mut [u8])
        requires { Covers self.now.at self.now.count at (length out.old) }
        ensures { (text : List ℕ) → Holds self.now.at self.now.count self.now.held text
            → out.new ≡ take (length out.old) (drop at text) }
    {
        out.copy_from_slice(self.piece(at, out.len()));
    }
}
