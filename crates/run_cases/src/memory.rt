//! Volumes in memory. A call that isn't to fail and fails all the same lacks memory.

ghost use Rattle.std.specs.Prelude.{◌≡◌, [], IfOk};
ghost use Rattle.zb_volume.specs.declared.areas.Area.{Area as WhichArea};
ghost use Rattle.zb_volume.specs.declared.areas.Area.TheVariants.{Hint};
ghost use Rattle.zb_volume.specs.Disk.{IsSettled, seen};
ghost use Rattle.zb_volume.specs.Kept.{log_of};

use crate::fields::MOST_CALLS;
use std::alloc::{AllocError, Global};
use zb_volume::{Area, MemoryVolume, Volume};

/// A volume with these bytes in Main, made sure of, whose calls of these numbers fail, counted from 1
/// behind those that put the bytes there.
pub fn volume_with(alloc: Global, main: &[u8], failing: &[u64]) -> Result<MemoryVolume, AllocError>
    ensures settled { IfOk result (λ v. (a : WhichArea) → IsSettled (log_of v.done) a) }
    ensures hint { IfOk result (λ v. seen (log_of v.done) Hint ≡ []) }
{
    let made = if main.is_empty() { 0 } else { 2 };
    let mut numbers = Vec::new(alloc);
    for number in failing {
        if *number > 0 {
            numbers.push(number.saturating_add(made))?;
        }
    }
    let mut volume = MemoryVolume::new(alloc, numbers);
    if main.is_empty() {
        return Ok(volume);
    }
    let Ok(()) = volume.write_at(Area::Main, 0, main) else {
        return Err(AllocError);
    };
    match volume.sync(Area::Main) {
        Ok(()) => Ok(volume),
        Err(_) => Err(AllocError),
    }
}

/// Makes calls that change nothing, until none that is to fail is left.
pub fn spend(volume: &mut MemoryVolume, failing: &[u64])
    ensures { log_of volume.new.done ≡ log_of volume.old.done }
{
    let mut most = 0;
    for number in failing {
        most = (*number).max(most);
    }
    'calls: for _ in 0..most.min(MOST_CALLS) {
        let _ = volume.len(Area::Main);
    }
}

/// What a read gives of Main, where no call is to fail.
pub fn main_of(alloc: Global, volume: &mut MemoryVolume) -> Result<Vec<u8>, AllocError>
    ensures { log_of volume.new.done ≡ log_of volume.old.done }
{
    let Ok(length) = volume.len(Area::Main) else {
        return Err(AllocError);
    };
    let mut bytes = vec![in alloc; 0u8; length as usize]?;
    match volume.read(Area::Main, 0, bytes.as_mut_slice()) {
        Ok(()) => Ok(bytes),
        Err(_) => Err(AllocError),
    }
}
