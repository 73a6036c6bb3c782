//! A volume in memory, for tests. It keeps each call that changed it, so that it tells what a crash
//! may leave.

ghost use Rattle.std.specs.Prelude.{◌≡◌, ◌↔◌, ◌+◌, ◌<◌, ◌≤◌, ◌^◌, List, [], ◌∷◌, length, IfOk, OnOk, OnErr, IsTrue};
ghost use Rattle.zb_volume.specs.declared.areas.Area.{Area};
ghost use Rattle.zb_volume.specs.Calls.{WriteAt, CutTo, SyncOf, Replace};
ghost use Rattle.zb_volume.specs.Disk.{Disk, disk, seen, area_length, IsSettled};
ghost use Rattle.zb_volume.specs.Images.{MayLeave, CrashLeaves};
ghost use Rattle.zb_volume.specs.Kept.{MemoryState, is_listed, log_of, calls_of};
ghost use Rattle.zb_volume.specs.Replays.{IsReplay, image_of};
ghost use Rattle.zb_base.specs.Bytes.{AreBytes};
ghost use Rattle.zb_base.specs.Counts.{one_more};

use crate::images::{greatest_image, is_image, least_image};
use crate::kept::{KeptCall, keep, keep_write};
use crate::replay::{Replay, make_again, overwrite};
use crate::{Area, StoreFault, Volume};
use std::alloc::{AllocError, Global};
use std::marker::Model;
use std::mem;

// The greatest length of an area in bytes.
const MAX_LENGTH: u64 = (1 << 63) - 1;

/// A volume in memory that fails at the calls that it is told, and where it finds no memory.
///
/// Contracts see its log, the numbers of the calls that are to fail, how many calls of `Volume` were
/// made, the two counts of faults, and how often it found no memory.
#[derive(Drop)]
pub struct MemoryVolume {
    alloc: Global,
    main: Vec<u8>,
    side: Vec<u8>,
    hint: Vec<u8>,
    kept: Vec<KeptCall>,
    failing: Vec<u64>,
    calls: u64,
    read_faults: u64,
    write_faults: u64,
    starved: u64,
}

impl Model for MemoryVolume {
    ghost use Rattle.std.specs.Prelude.{◌≡◌, ◌<◌, ◌^◌, length};
    ghost use Rattle.zb_volume.specs.declared.areas.Area.TheVariants.{Main, Side, Hint};
    ghost use Rattle.zb_volume.specs.Disk.{seen};
    ghost use Rattle.zb_volume.specs.Kept.{MemoryState, calls_of, log_of};

    ghost Value = { MemoryState };

    ghost view = { λ v. record {
      done = calls_of v.kept.items;
      failing = v.failing.items;
      number = v.calls;
      read_faults = v.read_faults;
      write_faults = v.write_faults;
      starved = v.starved;
    } };

    ghost invariant = { λ v. (v.main.items ≡ seen (log_of (calls_of v.kept.items)) Main)
        × (v.side.items ≡ seen (log_of (calls_of v.kept.items)) Side)
        × (v.hint.items ≡ seen (log_of (calls_of v.kept.items)) Hint)
        × (length v.main.items < 2 ^ 63) × (length v.side.items < 2 ^ 63) × (length v.hint.items < 2 ^ 63) };
}

// The greatest image of an area, or the least.
#[tactic(auto, using(crate::proofs::Extremes::found_possible, crate::proofs::Extremes::greatest_possible, crate::proofs::Extremes::least_possible))]
fn chosen(alloc: Global, area: &Replay, all: bool) -> Result<Vec<u8>, AllocError>
    ensures content { IfOk result (λ image. (d : Disk) → IsReplay area.now d →
        image.items ≡ image_of all d) }
    ensures possible { IfOk result (λ image. (d : Disk) → IsReplay area.now d →
        MayLeave d.pending image.items) }
{
    let image = if all {
        greatest_image(alloc, area)?
    } else {
        least_image(alloc, area)?
    };
    Ok(image)
}

// The calls that leave these contents, with nothing pending.
fn calls_for(
    alloc: Global,
    main: &[u8],
    side: &[u8],
    hint: &[u8],
) -> Result<Vec<KeptCall>, AllocError>
    ensures { IfOk result (λ kept. calls_of kept.items ≡
        SyncOf Area.Hint ∷ WriteAt Area.Hint 0 hint.now ∷ SyncOf Area.Side ∷ WriteAt Area.Side 0 side.now
        ∷ SyncOf Area.Main ∷ WriteAt Area.Main 0 main.now ∷ []) }
{
    let mut kept = Vec::new(alloc);
    keep_write(alloc, &mut kept, Area::Main, 0, main)?;
    keep(&mut kept, KeptCall::Synced(Area::Main))?;
    keep_write(alloc, &mut kept, Area::Side, 0, side)?;
    keep(&mut kept, KeptCall::Synced(Area::Side))?;
    keep_write(alloc, &mut kept, Area::Hint, 0, hint)?;
    keep(&mut kept, KeptCall::Synced(Area::Hint))?;
    Ok(kept)
}

// A volume with these contents, and nothing pending.
fn holding(
    alloc: Global,
    main: Vec<u8>,
    side: Vec<u8>,
    hint: Vec<u8>,
) -> Result<MemoryVolume, AllocError>
    ensures { IfOk result (λ v. v ≡ record {
      done = SyncOf Area.Hint ∷ WriteAt Area.Hint 0 hint.items ∷ SyncOf Area.Side ∷ WriteAt Area.Side 0 side.items
          ∷ SyncOf Area.Main ∷ WriteAt Area.Main 0 main.items ∷ [];
      failing = [];
      number = 0;
      read_faults = 0;
      write_faults = 0;
      starved = 0;
    }) }
{
    let kept = calls_for(alloc, &main, &side, &hint)?;
    Ok(MemoryVolume {
        alloc,
        main,
        side,
        hint,
        kept,
        failing: Vec::new(alloc),
        calls: 0,
        read_faults: 0,
        write_faults: 0,
        starved: 0,
    })
}

// The number of bytes, each of which is one.
fn measure(bytes: &[u8]) -> u64
    ensures length { result ≡ length bytes.now }
    ensures bytes { AreBytes bytes.now }
{
    bytes.len() as u64
}

impl MemoryVolume {
    /// An empty volume, whose calls of these numbers fail, counted from 1 over all calls of `Volume`.
    pub fn new(alloc: Global, failing: Vec<u64>) -> MemoryVolume
        ensures { result ≡ record {
          done = [];
          failing = failing.items;
          number = 0;
          read_faults = 0;
          write_faults = 0;
          starved = 0;
        } }
    {
        MemoryVolume {
            alloc,
            main: Vec::new(alloc),
            side: Vec::new(alloc),
            hint: Vec::new(alloc),
            kept: Vec::new(alloc),
            failing,
            calls: 0,
            read_faults: 0,
            write_faults: 0,
            starved: 0,
        }
    }

    /// How often a call found no memory.
    pub fn starved(&self) -> u64
        ensures { result ≡ self.now.starved }
    {
        self.starved
    }

    /// What a crash now may leave: with each write since the last syncs and the greatest lengths, or
    /// with none of them and the least lengths. Nothing is pending in the volume that is given, and
    /// none of its calls is to fail.
    pub fn image(&self, all: bool) -> Result<MemoryVolume, AllocError>
        ensures content { IfOk result (λ v. (a : Area) →
            seen (log_of v.done) a ≡ image_of all (disk (log_of self.now.done) a)) }
        ensures possible { IfOk result (λ v. (a : Area) →
            CrashLeaves (log_of self.now.done) a (seen (log_of v.done) a)) }
        ensures settled { IfOk result (λ v. (a : Area) → IsSettled (log_of v.done) a) }
        ensures fresh { IfOk result (λ v. (v.failing ≡ []) × (v.number ≡ 0) × (v.read_faults ≡ 0)
            × (v.write_faults ≡ 0) × (v.starved ≡ 0)) }
    {
        let areas = make_again(self.alloc, &self.kept)?;
        let main = chosen(self.alloc, &areas.main, all)?;
        let side = chosen(self.alloc, &areas.side, all)?;
        let hint = chosen(self.alloc, &areas.hint, all)?;
        let image = holding(self.alloc, main, side, hint)?;
        Ok(image)
    }

    /// Whether a crash now may leave these bytes of an area.
    pub fn may_leave(&self, area: Area, image: &[u8]) -> Result<bool, AllocError>
        ensures { IfOk result (λ b. IsTrue b ↔ CrashLeaves (log_of self.now.done) area image.now) }
    {
        let areas = make_again(self.alloc, &self.kept)?;
        match area {
            Area::Main => Ok(is_image(&areas.main, image)),
            Area::Side => Ok(is_image(&areas.side, image)),
            Area::Hint => Ok(is_image(&areas.hint, image)),
        }
    }

    // Counts a call, and answers whether it is to fail.
    fn is_failing(&mut self) -> bool
        ensures listed { result ≡ is_listed self.old.failing self.new.number }
        ensures counted { self.new ≡ record self.old { number = one_more self.old.number } }
    {
        self.calls = self.calls.saturating_add(1);
        self.failing.contains(&self.calls)
    }

    fn count_read_fault(&mut self) -> StoreFault
        ensures later { self.old.read_faults ≤ self.new.read_faults }
        ensures counted { self.new ≡ record self.old {
          read_faults = one_more self.old.read_faults;
        } }
    {
        self.read_faults = self.read_faults.saturating_add(1);
        StoreFault
    }

    fn count_write_fault(&mut self) -> StoreFault
        ensures later { self.old.write_faults ≤ self.new.write_faults }
        ensures counted { self.new ≡ record self.old {
          write_faults = one_more self.old.write_faults;
        } }
    {
        self.write_faults = self.write_faults.saturating_add(1);
        StoreFault
    }

    // A call found no memory.
    fn starve(&mut self) -> StoreFault
        ensures later { self.old.write_faults ≤ self.new.write_faults }
        ensures counted { self.new ≡ record self.old {
          write_faults = one_more self.old.write_faults;
          starved = one_more self.old.starved;
        } }
    {
        self.starved = self.starved.saturating_add(1);
        self.write_faults = self.write_faults.saturating_add(1);
        StoreFault
    }

    // What a read gives of an area.
    fn content(&self, area: Area) -> &[u8]
        ensures content { result.now ≡ seen (log_of self.now.done) area }
        ensures limit { length result.now < 2 ^ 63 }
    {
        match area {
            Area::Main => &self.main,
            Area::Side => &self.side,
            Area::Hint => &self.hint,
        }
    }

    fn try_write(&mut self, area: Area, at: u64, bytes: &[u8]) -> Result<(), AllocError>
        requires { at ≤ area_length (log_of self.old.done) area }
        ensures ok { OnOk result (self.new ≡ record self.old {
          done = WriteAt area at bytes.now ∷ self.old.done;
        }) }
        ensures limit { OnOk result (at + length bytes.now < 2 ^ 63) }
        ensures err { OnErr result (self.new ≡ self.old) }
    {
        if bytes.len() as u64 > MAX_LENGTH || at > MAX_LENGTH - bytes.len() as u64 {
            return Err(AllocError);
        }
        let count = self.kept.len();
        keep_write(self.alloc, &mut self.kept, area, at, bytes)?;
        let done = match area {
            Area::Main => overwrite(&mut self.main, at as usize, bytes),
            Area::Side => overwrite(&mut self.side, at as usize, bytes),
            Area::Hint => overwrite(&mut self.hint, at as usize, bytes),
        };
        if done.is_err() {
            self.kept.truncate(count);
        }
        done
    }

    fn try_cut(&mut self, area: Area, length: u64) -> Result<(), AllocError>
        requires { length ≤ area_length (log_of self.old.done) area }
        ensures ok { OnOk result (self.new ≡ record self.old {
          done = CutTo area length ∷ self.old.done;
        }) }
        ensures err { OnErr result (self.new ≡ self.old) }
    {
        keep(&mut self.kept, KeptCall::Cut(area, length))?;
        match area {
            Area::Main => self.main.truncate(length as usize),
            Area::Side => self.side.truncate(length as usize),
            Area::Hint => self.hint.truncate(length as usize),
        }
        Ok(())
    }

    fn try_sync(&mut self, area: Area) -> Result<(), AllocError>
        ensures ok { OnOk result (self.new ≡ record self.old { done = SyncOf area ∷ self.old.done }) }
        ensures err { OnErr result (self.new ≡ self.old) }
    {
        keep(&mut self.kept, KeptCall::Synced(area))
    }

    fn try_replace(&mut self) -> Result<(), AllocError>
        ensures ok { OnOk result (self.new ≡ record self.old { done = Replace ∷ self.old.done }) }
        ensures err { OnErr result (self.new ≡ self.old) }
    {
        keep(&mut self.kept, KeptCall::Replaced)?;
        self.main = mem::replace(&mut self.side, Vec::new(self.alloc));
        Ok(())
    }
}

impl Volume for MemoryVolume {
    ghost use Rattle.zb_volume.specs.Kept.{log_of, FailsWhereListed};
    ghost use Rattle.zb_volume.specs.Reading.{seen_is_left};

    ghost told = { Unit {0} };

    ghost state = { λ v. record {
      log = log_of v.done;
      read_faults = v.read_faults;
      write_faults = v.write_faults;
    } };

    ghost called = { FailsWhereListed };

    ghost seen_is_left = { λ v a told. seen_is_left v.done a };

    fn len(&mut self, area: Area) -> Result<u64, StoreFault> {
        if self.is_failing() {
            return Err(self.count_read_fault());
        }
        Ok(measure(self.content(area)))
    }

    fn read(&mut self, area: Area, at: u64, out: &mut [u8]) -> Result<(), StoreFault> {
        if self.is_failing() {
            return Err(self.count_read_fault());
        }
        let from = at as usize;
        out.copy_from_slice(&self.content(area)[from..from + out.len()]);
        Ok(())
    }

    fn write_at(&mut self, area: Area, at: u64, bytes: &[u8]) -> Result<(), StoreFault> {
        if self.is_failing() {
            return Err(self.count_write_fault());
        }
        if self.try_write(area, at, bytes).is_err() {
            return Err(self.starve());
        }
        Ok(())
    }

    fn cut(&mut self, area: Area, length: u64) -> Result<(), StoreFault> {
        if self.is_failing() {
            return Err(self.count_write_fault());
        }
        if self.try_cut(area, length).is_err() {
            return Err(self.starve());
        }
        Ok(())
    }

    fn sync(&mut self, area: Area) -> Result<(), StoreFault> {
        if self.is_failing() {
            return Err(self.count_write_fault());
        }
        if self.try_sync(area).is_err() {
            return Err(self.starve());
        }
        Ok(())
    }

    fn replace(&mut self) -> Result<(), StoreFault> {
        if self.is_failing() {
            return Err(self.count_write_fault());
        }
        if self.try_replace().is_err() {
            return Err(self.starve());
        }
        Ok(())
    }
}
