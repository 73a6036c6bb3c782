//! Bytes on their way to Side.

ghost use Rattle.std.specs.Prelude.{◌≡◌, ◌+◌, ◌<◌, ◌≤◌, ◌^◌, ◌++◌, [], length, take, drop, IfOk, OnOk};
ghost use Rattle.zb_base.specs.Bytes.{AreBytes};
ghost use Rattle.zb_volume.specs.declared.areas.Area.{Area};
ghost use Rattle.zb_volume.specs.declared.areas.Area.TheVariants.{Side};
ghost use Rattle.zb_volume.specs.Disk.{main_bytes, seen};
ghost use Rattle.zb_volume.specs.States.{OthersStay};
ghost use Rattle.pack_copy.specs.Appending.{IsAppended, IsAtEnd};
ghost use Rattle.pack_copy.specs.Counting.{IsCopyCounted};

use std::alloc::{AllocError, Global};
use std::marker::Model;
use zb_model::StoreError;
use zb_volume::{Area, StoreFault, Volume};

/// How many bytes are held at most before they are written.
const PIECE: usize = 65_536;

/// Bytes that are to stand behind Side, of which at most 64 KiB are held: where there are more, those
/// that are held are written first. Contracts see the bytes that are held, and where Side ends.
#[derive(Drop)]
pub(crate) struct Buffer {
    bytes: Vec<u8>,
    held: usize,
    end: u64,
}

impl Model for Buffer {
    ghost use Rattle.std.specs.Prelude.{◌≡◌, ◌≤◌, take, length};
    ghost use Rattle.pack_copy.specs.Appending.{Held};

    ghost Value = { Held };

    ghost view = { λ a. record { bytes = take a.held a.bytes.items; end = a.end } };

    ghost invariant = { λ a. (a.held ≤ 65536) × (length a.bytes.items ≡ 65536) };
}

/// Each byte of a slice is below 256.
fn are_bytes(bytes: &[u8])
    ensures { AreBytes bytes.now }
{}

/// Fills `out` with the bytes of Main from a place on.
fn read_main<V: Volume>(volume: &mut V, at: u64, out: &mut [u8]) -> Result<(), StoreError>
    requires { V.told → at + length out.old ≤ length (main_bytes (V.state volume.old).log) }
    ensures bytes { V.told → OnOk result
        (out.new ≡ take (length out.old) (drop at (main_bytes (V.state volume.old).log))) }
    ensures same { (V.state volume.new).log ≡ (V.state volume.old).log }
    ensures counts { IsCopyCounted (V.state volume.old) (V.state volume.new) result }
{
    match volume.read(Area::Main, at, out) {
        Ok(()) => Ok(()),
        Err(StoreFault) => Err(StoreError::ReadFault),
    }
}

/// Writes a text behind Side.
fn write_behind<V: Volume>(volume: &mut V, end: u64, text: &[u8]) -> Result<(), StoreError>
    requires { V.told → end ≡ length (seen (V.state volume.old).log Area.Side) }
    ensures content { V.told → OnOk result (seen (V.state volume.new).log Area.Side
        ≡ seen (V.state volume.old).log Area.Side ++ text.now) }
    ensures limit { OnOk result (end + length text.now < 2 ^ 63) }
    ensures others { V.told → OthersStay Side (V.state volume.old).log (V.state volume.new).log }
    ensures counts { IsCopyCounted (V.state volume.old) (V.state volume.new) result }
{
    match volume.write_at(Area::Side, end, text) {
        Ok(()) => Ok(()),
        Err(StoreFault) => Err(StoreError::StoreFault),
    }
}

impl Buffer {
    /// A buffer that holds nothing. The one error is want of memory.
    pub(crate) fn new(alloc: Global) -> Result<Buffer, AllocError> {
        Ok(Buffer {
            bytes: vec![in alloc; 0u8; PIECE]?,
            held: 0,
            end: 0,
        })
    }

    /// Begins anew, with nothing held, where Side ends here.
    pub(crate) fn start(&mut self, end: u64)
        ensures { self.new ≡ record { bytes = []; end = end } }
    {
        self.held = 0;
        self.end = end;
    }

    /// Writes the bytes that are held behind Side, and holds nothing then.
    pub(crate) fn flush<V: Volume>(&mut self, volume: &mut V) -> Result<(), StoreError>
        requires { V.told → IsAtEnd (V.state volume.old).log self.old }
        ensures appended { V.told → OnOk result
            (IsAppended (V.state volume.old).log self.old (V.state volume.new).log self.new []) }
        ensures empty { OnOk result (self.new.bytes ≡ []) }
        ensures others { V.told
            → OthersStay Side (V.state volume.old).log (V.state volume.new).log }
        ensures counts { IsCopyCounted (V.state volume.old) (V.state volume.new) result }
    {
        write_behind(volume, self.end, &self.bytes[..self.held])?;
        self.end += self.held as u64;
        self.held = 0;
        Ok(())
    }

    /// Writes the bytes that are held where there is no room for one more.
    fn make_room<V: Volume>(&mut self, volume: &mut V) -> Result<(), StoreError>
        requires { V.told → IsAtEnd (V.state volume.old).log self.old }
        ensures appended { V.told → OnOk result
            (IsAppended (V.state volume.old).log self.old (V.state volume.new).log self.new []) }
        ensures room { OnOk result (length self.new.bytes < 65536) }
        ensures others { V.told
            → OthersStay Side (V.state volume.old).log (V.state volume.new).log }
        ensures counts { IsCopyCounted (V.state volume.old) (V.state volume.new) result }
    {
        if self.held < PIECE {
            return Ok(());
        }
        self.flush(volume)
    }

    /// Takes in as many of these bytes as there is room for, the first ones, and answers how many.
    fn take_in(&mut self, bytes: &[u8]) -> usize
        requires { length self.old.bytes < 65536 }
        ensures count { result ≤ length bytes.now }
        ensures some { 0 < length bytes.now → 0 < result }
        ensures held { self.new.bytes ≡ self.old.bytes ++ take result bytes.now }
        ensures end { self.new.end ≡ self.old.end }
    {
        let count = bytes.len().min(PIECE - self.held);
        self.bytes[self.held..self.held + count].copy_from_slice(&bytes[..count]);
        self.held += count;
        count
    }

    /// Reads as many of so many bytes of Main from a place on as there is room for, and answers how many.
    fn read_in<V: Volume>(
        &mut self,
        volume: &mut V,
        at: u64,
        most: u64,
    ) -> Result<usize, StoreError>
        requires room { length self.old.bytes < 65536 }
        requires within { V.told → at + most ≤ length (main_bytes (V.state volume.old).log) }
        ensures count { IfOk result (λ count. count ≤ most) }
        ensures some { 0 < most → IfOk result (λ count. 0 < count) }
        ensures held { V.told → IfOk result (λ count. self.new.bytes
            ≡ self.old.bytes ++ take count (drop at (main_bytes (V.state volume.old).log))) }
        ensures fits { V.told → IfOk result (λ count.
            AreBytes (take count (drop at (main_bytes (V.state volume.old).log)))) }
        ensures end { self.new.end ≡ self.old.end }
        ensures same { (V.state volume.new).log ≡ (V.state volume.old).log }
        ensures counts { IsCopyCounted (V.state volume.old) (V.state volume.new) result }
    {
        let room = PIECE - self.held;
        let count = most.min(room as u64) as usize;
        let piece = &mut self.bytes[self.held..self.held + count];
        read_main(volume, at, piece)?;
        are_bytes(piece);
        self.held += count;
        Ok(count)
    }

    /// Puts bytes behind those that are held.
    pub(crate) fn put<V: Volume>(&mut self, volume: &mut V, bytes: &[u8]) -> Result<(), StoreError>
        requires { V.told → IsAtEnd (V.state volume.old).log self.old }
        ensures appended { V.told
            → OnOk result (IsAppended (V.state volume.old).log self.old
            (V.state volume.new).log self.new bytes.now) }
        ensures others { V.told
            → OthersStay Side (V.state volume.old).log (V.state volume.new).log }
        ensures counts { IsCopyCounted (V.state volume.old) (V.state volume.new) result }
    {
        are_bytes(bytes);
        let mut done = 0;
        while done < bytes.len() {
            self.make_room(volume)?;
            let more = self.take_in(&bytes[done..]);
            done += more;
        }
        Ok(())
    }

    /// Puts so many bytes of Main from a place on behind those that are held.
    pub(crate) fn put_main<V: Volume>(
        &mut self,
        volume: &mut V,
        at: u64,
        count: u64,
    ) -> Result<(), StoreError>
        requires end { V.told → IsAtEnd (V.state volume.old).log self.old }
        requires short { V.told → length (main_bytes (V.state volume.old).log) < 2 ^ 64 }
        requires within { V.told → at + count ≤ length (main_bytes (V.state volume.old).log) }
        ensures appended { V.told → OnOk result
            (IsAppended (V.state volume.old).log self.old (V.state volume.new).log self.new
            (take count (drop at (main_bytes (V.state volume.old).log)))) }
        ensures others { V.told
            → OthersStay Side (V.state volume.old).log (V.state volume.new).log }
        ensures counts { IsCopyCounted (V.state volume.old) (V.state volume.new) result }
    {
        let mut done = 0;
        while done < count {
            self.make_room(volume)?;
            let from = at.saturating_add(done);
            let more = self.read_in(volume, from, count - done)?;
            done += more as u64;
        }
        Ok(())
    }
}
