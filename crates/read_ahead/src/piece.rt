//! A piece of Main.

ghost use Rattle.std.specs.Prelude.{◌≡◌, ◌+◌, ◌-◌, ◌≤◌, true, length, take, drop, IfOk, OnOk};
ghost use Rattle.zb_volume.specs.Disk.{main_bytes};
ghost use Rattle.zb_volume.specs.States.{OnlyReads};
ghost use Rattle.read_ahead.specs.Holding.{Covers, Holds};

use std::alloc::{AllocError, Global};
use zb_volume::{Area, StoreFault, Volume};

/// How many bytes are held at most.
pub(crate) const PIECE: usize = 65_536;

/// Up to 64 KiB of Main from a place on.
#[derive(Drop)]
pub struct Piece {
    /// From which place on bytes are held.
    pub at: u64,
    /// How many.
    pub count: usize,
    /// The bytes, and behind them anything.
    pub held: Vec<u8>,
    ghost within: { count ≤ length held.items },
    ghost long: { length held.items ≡ 65536 },
}

/// Fills so many bytes at the front of `out` with those of Main from a place on.
fn read_front<V: Volume>(
    volume: &mut V,
    at: u64,
    out: &mut [u8],
    count: usize,
) -> Result<(), StoreFault>
    requires small { count ≤ length out.old }
    requires within { V.told → at + count ≤ length (main_bytes (V.state volume.old).log) }
    ensures holds { V.told → OnOk result
        (Holds at count out.new (main_bytes (V.state volume.old).log)) }
    ensures long { length out.new ≡ length out.old }
    ensures read { OnlyReads (V.state volume.old) (V.state volume.new) result }
{
    volume.read(Area::Main, at, &mut out[..count])
}

impl Piece {
    /// A piece that holds nothing. The one error is want of memory.
    pub(crate) fn new(alloc: Global) -> Result<Piece, AllocError>
        ensures { IfOk result (λ piece. piece.count ≡ 0) }
    {
        Ok(Piece {
            at: 0,
            count: 0,
            held: vec![in alloc; 0u8; PIECE]?,
        })
    }

    /// Holds nothing from now on.
    pub(crate) fn forget(&mut self)
        ensures { self.new.count ≡ 0 }
    {
        self.count = 0;
    }

    /// Whether the n bytes at a place are held.
    #[inline(always)]
    pub(crate) fn covers(&self, at: u64, n: usize) -> bool
        ensures { result ≡ true → Covers self.now.at self.now.count at n }
    {
        at >= self.at
            && at - self.at <= self.count as u64
            && n <= self.count - (at - self.at) as usize
    }

    /// The n bytes at a place, which are held.
    #[inline(always)]
    pub(crate) fn bytes(&self, at: u64, n: usize) -> &[u8]
        requires { Covers self.now.at self.now.count at n }
        ensures bytes { result.now ≡ take n (drop (at - self.now.at) self.now.held.items) }
        ensures long { length result.now ≡ n }
    {
        let from = (at - self.at) as usize;
        let all = self.held.as_slice();
        &all[from..from + n]
    }

    /// Holds so many bytes from a place on, which all stand in Main.
    pub(crate) fn fill<V: Volume>(
        &mut self,
        volume: &mut V,
        at: u64,
        count: usize,
    ) -> Result<(), StoreFault>
        requires small { count ≤ 65536 }
        requires within { V.told → at + count ≤ length (main_bytes (V.state volume.old).log) }
        ensures holds { V.told → Holds self.new.at self.new.count self.new.held.items
            (main_bytes (V.state volume.old).log) }
        ensures read { OnlyReads (V.state volume.old) (V.state volume.new) result }
    {
        self.count = 0;
        self.at = at;
        read_front(volume, at, self.held.as_mut_slice(), count)?;
        self.count = count;
        Ok(())
    }
}
