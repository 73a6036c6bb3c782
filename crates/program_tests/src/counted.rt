//! A volume that counts the bytes that are read of Main.

ghost use Rattle.std.specs.Prelude.{◌≡◌, ◌<◌, ◌+◌, ◌^◌, [], true};

use std::alloc::Global;
use std::mem;
use zb_volume::{Area, StoreFault, Volume};

/// The greatest length of an area in bytes.
const MOST: u64 = (1 << 63) - 1;

/// What the areas hold, and how many bytes were read of Main.
#[derive(Drop)]
struct Areas {
    main: Vec<u8>,
    side: Vec<u8>,
    hint: Vec<u8>,
    read_of_main: u64,
}

impl Areas {
    /// What an area holds.
    fn of(&self, area: Area) -> &[u8] {
        match area {
            Area::Main => self.main.as_slice(),
            Area::Side => self.side.as_slice(),
            Area::Hint => self.hint.as_slice(),
        }
    }

    /// The first bytes of an area from a place on, as many as are asked for, or that there are fewer.
    fn read(&mut self, area: Area, at: u64, out: &mut [u8]) -> bool {
        let Some(found) = self.of(area).get(at as usize..) else {
            return false;
        };
        if found.len() < out.len() {
            return false;
        }
        for (to, from) in out.iter_mut().zip(found.iter()) {
            *to = *from;
        }
        if let Area::Main = area {
            self.read_of_main = self.read_of_main.saturating_add(out.len() as u64);
        }
        true
    }

    /// Puts bytes into an area, over what stands there from a place on and behind its end, or memory is short.
    fn write(&mut self, area: Area, at: u64, bytes: &[u8]) -> bool {
        match area {
            Area::Main => put(&mut self.main, at as usize, bytes),
            Area::Side => put(&mut self.side, at as usize, bytes),
            Area::Hint => put(&mut self.hint, at as usize, bytes),
        }
    }

    /// Cuts an area to a length.
    fn cut(&mut self, area: Area, length: u64) {
        match area {
            Area::Main => self.main.truncate(length as usize),
            Area::Side => self.side.truncate(length as usize),
            Area::Hint => self.hint.truncate(length as usize),
        }
    }

    /// Side takes the place of Main.
    fn replace(&mut self) {
        mem::swap(&mut self.main, &mut self.side);
        self.side.clear();
    }
}

/// A volume in memory that counts the bytes that are read of Main. It tells nothing of itself, so that
/// any bytes may stand in Hint.
#[derive(Drop)]
pub struct CountedVolume {
    areas: Areas,
    read_faults: u64,
    write_faults: u64,
}

/// Puts bytes over others, from a place in them on, and what is left behind them.
fn put(content: &mut Vec<u8>, at: usize, bytes: &[u8]) -> bool {
    let mut place = at;
    for byte in bytes {
        let full = match content.get_mut(place) {
            Some(old) => {
                *old = *byte;
                false
            }
            None => content.push(*byte).is_err(),
        };
        if full {
            return false;
        }
        place = place.saturating_add(1);
    }
    true
}

/// Whether so many bytes from a place on end below the greatest length.
fn fits(at: u64, count: usize) -> bool
    ensures end { result ≡ true → at + count < 2 ^ 63 }
{
    match at.checked_add(count as u64) {
        Some(end) => end <= MOST,
        None => false,
    }
}

impl CountedVolume {
    /// An empty volume.
    pub fn new(alloc: Global) -> CountedVolume {
        CountedVolume {
            areas: Areas {
                main: Vec::new(alloc),
                side: Vec::new(alloc),
                hint: Vec::new(alloc),
                read_of_main: 0,
            },
            read_faults: 0,
            write_faults: 0,
        }
    }

    /// How many bytes were read of Main.
    pub fn read_of_main(&self) -> u64 {
        self.areas.read_of_main
    }
}

impl Volume for CountedVolume {
    ghost told = { ⊥ };

    ghost state = { λ v. record {
      log = [];
      read_faults = v.read_faults;
      write_faults = v.write_faults;
    } };

    ghost called = { λ _ _ _ _. Unit {0} };

    ghost seen_is_left = { λ v a told. absurd told };

    fn len(&mut self, area: Area) -> Result<u64, StoreFault> {
        let length = self.areas.of(area).len() as u64;
        if length > MOST {
            self.read_faults = self.read_faults.saturating_add(1);
            return Err(StoreFault);
        }
        Ok(length)
    }

    fn read(&mut self, area: Area, at: u64, out: &mut [u8]) -> Result<(), StoreFault> {
        if !self.areas.read(area, at, out) {
            self.read_faults = self.read_faults.saturating_add(1);
            return Err(StoreFault);
        }
        Ok(())
    }

    fn write_at(&mut self, area: Area, at: u64, bytes: &[u8]) -> Result<(), StoreFault> {
        if !fits(at, bytes.len()) {
            self.write_faults = self.write_faults.saturating_add(1);
            return Err(StoreFault);
        }
        if !self.areas.write(area, at, bytes) {
            self.write_faults = self.write_faults.saturating_add(1);
            return Err(StoreFault);
        }
        Ok(())
    }

    fn cut(&mut self, area: Area, length: u64) -> Result<(), StoreFault> {
        self.areas.cut(area, length);
        Ok(())
    }

    fn sync(&mut self, _area: Area) -> Result<(), StoreFault> {
        Ok(())
    }

    fn replace(&mut self) -> Result<(), StoreFault> {
        self.areas.replace();
        Ok(())
    }
}
