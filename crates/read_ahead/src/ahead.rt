//! A volume that is read ahead.

ghost use Rattle.std.specs.Prelude.{◌≡◌, ◌+◌, ◌≤◌, ◌<◌, ◌^◌, true, false, length, take, drop, OnOk, IfOk};
ghost use Rattle.zb_volume.specs.declared.areas.Area.TheVariants.{Main};
ghost use Rattle.zb_volume.specs.Calls.{same_area};
ghost use Rattle.zb_volume.specs.Disk.{main_bytes};
ghost use Rattle.zb_volume.specs.States.{OnlyReads};
ghost use Rattle.read_ahead.specs.Holding.{Covers, Holds};

use crate::piece::{PIECE, Piece};
use std::alloc::{AllocError, Global};
use zb_volume::{Area, StoreFault, Volume};

/// The least number of bytes that are read ahead: less is not worth a piece.
const LEAST: usize = 4_096;

/// By how many bytes the next piece grows beside twice the last one: so four reads in order come first.
const FIRST: usize = 512;

/// How many bytes may stand between two reads in order, as a closing length does.
const GAP: u64 = 64;

/// A volume over another one. It is what that one is: the same calls that changed it, the same counts of
/// faults. Where Main is read in order, in reads of at most 4 KiB, it is read ahead, in pieces that grow
/// up to 64 KiB, and what stands in the last piece isn't read again. Each other read, and each other
/// call, is one call of the volume below, and so is each piece but for the length of Main, which is
/// asked for ahead of it. A piece that can't be read is a failed read.
#[derive(Drop)]
pub struct ReadAhead<V: Volume> {
    volume: V,
    piece: Piece,
    // Where the last read of Main began, and where it ended.
    last: u64,
    next: u64,
    // How many bytes the next piece has, once there are enough of them.
    reach: usize,
    ghost small: { reach ≤ 65536 },
    ghost shows: { V.told
        → Holds piece.at piece.count piece.held.items (main_bytes (V.state volume).log) },
}

/// Whether an area is Main.
fn is_main(area: Area) -> bool
    ensures main { result ≡ true → area ≡ Main }
    ensures other { result ≡ false → same_area area Main ≡ false }
{
    match area {
        Area::Main => true,
        Area::Side => false,
        Area::Hint => false,
    }
}

/// How many bytes to read at a place of a Main of this length.
fn reach_at(length: u64, at: u64, reach: usize) -> usize
    requires { reach ≤ 65536 }
    ensures most { result ≤ 65536 }
    ensures within { at ≤ length → at + result ≤ length }
{
    let rest = length.saturating_sub(at);
    if rest < reach as u64 {
        return rest as usize;
    }
    reach
}

impl<V: Volume + Drop> ReadAhead<V> {
    /// A volume over this one, of which nothing is read yet. The one error is want of memory.
    pub fn new(alloc: Global, volume: V) -> Result<ReadAhead<V>, AllocError>
        ensures { IfOk result (λ made. ⟦<ReadAhead<V> as Volume>⟧.state made ≡ V.state volume) }
    {
        Ok(ReadAhead {
            piece: Piece::new(alloc)?,
            volume,
            last: 0,
            next: 0,
            reach: 0,
        })
    }
}

impl<V: Volume> ReadAhead<V> {
    /// Notes a read of so many bytes at a place.
    #[inline(always)]
    fn note(&mut self, at: u64, n: usize)
        ensures state { V.state self.new.volume ≡ V.state self.old.volume }
        ensures at { self.new.piece.at ≡ self.old.piece.at }
        ensures count { self.new.piece.count ≡ self.old.piece.count }
    {
        self.last = at;
        self.next = at.saturating_add(n as u64);
    }

    /// Whether a read of so many bytes at a place goes on behind the last one, as those before it did, so
    /// that a piece is worth it.
    fn is_in_order(&mut self, at: u64, n: usize) -> bool
        ensures { V.state self.new.volume ≡ V.state self.old.volume }
    {
        if n > LEAST || at < self.last || at > self.next.saturating_add(GAP) {
            self.reach = 0;
            return false;
        }
        self.reach = (self.reach * 2 + FIRST).min(PIECE);
        self.reach >= LEAST
    }

    /// Holds a piece from a place on.
    fn read_piece(&mut self, at: u64) -> Result<(), StoreFault>
        requires { V.told → at ≤ length (main_bytes (V.state self.old.volume).log) }
        ensures { OnlyReads (V.state self.old.volume) (V.state self.new.volume) result }
    {
        let length = self.volume.len(Area::Main)?;
        let count = reach_at(length, at, self.reach);
        self.piece.fill(&mut self.volume, at, count)
    }

    /// Fills `out` with the bytes of Main at a place, which are held.
    #[tactic(auto, using(crate::proofs::Shown::shown))]
    #[inline(always)]
    fn copy(&self, at: u64, out: &mut [u8])
        requires { Covers self.now.piece.at self.now.piece.count at (length out.old) }
        ensures { V.told → out.new
            ≡ take (length out.old) (drop at (main_bytes (V.state self.now.volume).log)) }
    {
        out.copy_from_slice(self.piece.bytes(at, out.len()));
    }

    /// Fills `out` with the bytes of Main at a place that aren't held, with a piece or without.
    #[inline(never)]
    fn read_far(&mut self, at: u64, out: &mut [u8]) -> Result<(), StoreFault>
        requires { V.told
            → at + length out.old ≤ length (main_bytes (V.state self.old.volume).log) }
        ensures bytes { V.told → OnOk result (out.new
            ≡ take (length out.old) (drop at (main_bytes (V.state self.old.volume).log))) }
        ensures read { OnlyReads (V.state self.old.volume) (V.state self.new.volume) result }
    {
        let n = out.len();
        let in_order = self.is_in_order(at, n);
        self.note(at, n);
        if !in_order {
            return self.volume.read(Area::Main, at, out);
        }
        self.read_piece(at)?;
        if !self.piece.covers(at, n) {
            return self.volume.read(Area::Main, at, out);
        }
        self.copy(at, out);
        Ok(())
    }

    /// Fills `out` with the bytes of Main at a place.
    #[inline(always)]
    fn read_main(&mut self, at: u64, out: &mut [u8]) -> Result<(), StoreFault>
        requires { V.told
            → at + length out.old ≤ length (main_bytes (V.state self.old.volume).log) }
        ensures bytes { V.told → OnOk result (out.new
            ≡ take (length out.old) (drop at (main_bytes (V.state self.old.volume).log))) }
        ensures read { OnlyReads (V.state self.old.volume) (V.state self.new.volume) result }
    {
        let n = out.len();
        if !self.piece.covers(at, n) {
            return self.read_far(at, out);
        }
        self.copy(at, out);
        self.note(at, n);
        Ok(())
    }
}

impl<V: Volume> Volume for ReadAhead<V> {
    ghost told = { V.told };

    ghost state = { λ a. V.state a.volume };

    ghost called = { λ _ _ _ _. Unit {0} };

    ghost seen_is_left = { λ a area told. V.seen_is_left a.volume area told };

    fn len(&mut self, area: Area) -> Result<u64, StoreFault> {
        self.volume.len(area)
    }

    fn read(&mut self, area: Area, at: u64, out: &mut [u8]) -> Result<(), StoreFault> {
        if !is_main(area) {
            return self.volume.read(area, at, out);
        }
        self.read_main(at, out)
    }

    fn write_at(&mut self, area: Area, at: u64, bytes: &[u8]) -> Result<(), StoreFault> {
        if is_main(area) {
            self.piece.forget();
        }
        self.volume.write_at(area, at, bytes)
    }

    fn cut(&mut self, area: Area, length: u64) -> Result<(), StoreFault> {
        self.piece.forget();
        self.volume.cut(area, length)
    }

    fn sync(&mut self, area: Area) -> Result<(), StoreFault> {
        self.piece.forget();
        self.volume.sync(area)
    }

    fn replace(&mut self) -> Result<(), StoreFault> {
        self.piece.forget();
        self.volume.replace()
    }
}
